// The two directions of a conversion.
ghost use Rattle.std.specs.Prelude.{◌≡◌, true, false, Bool, length};
ghost use Rattle.delivery_csv.specs.Converting.{conversion, bytes_after};
ghost use Rattle.delivery_csv.specs.Parts.{turned_if};
ghost use Rattle.delivery_csv.specs.Stream.{converted};

use crate::{ConversionError, QUOTE, csv_to_drill, drill_to_csv};

pub trait Direction {
    // Whether quotes count in what is read.
    ghost quotes: { Bool };

    // Whether a text that is within quotes or not goes on within them after a byte.
    fn turned(inside: bool, byte: u8) -> bool
        ensures { result ≡ turned_if quotes inside byte };

    // Turns a text, and answers how many bytes were written. A refusal leaves the lent bytes.
    fn convert(text: &[u8], out: &mut [u8]) -> Result<usize, ConversionError>
        ensures answer { result ≡ conversion (converted quotes text.now) (length out.old) }
        ensures bytes { out.new ≡ bytes_after (converted quotes text.now) out.old };
}

// Records to drill lines.
pub struct ToDrill;

impl Direction for ToDrill {
    ghost quotes = { true };

    #[tactic(auto, using(crate::specs::laws::Walk::turned_by_quote))]
    fn turned(inside: bool, byte: u8) -> bool {
        inside ^ (byte == QUOTE)
    }

    #[tactic(auto, unfolding(crate::specs::Stream::converted))]
    fn convert(text: &[u8], out: &mut [u8]) -> Result<usize, ConversionError> {
        csv_to_drill(text, out)
    }
}

// Drill lines to records.
pub struct ToCsv;

impl Direction for ToCsv {
    ghost quotes = { false };

    #[tactic(auto, unfolding(crate::specs::Parts::turned_if, crate::specs::Lines::unturned))]
    fn turned(_inside: bool, _byte: u8) -> bool {
        false
    }

    #[tactic(auto, unfolding(crate::specs::Stream::converted))]
    fn convert(text: &[u8], out: &mut [u8]) -> Result<usize, ConversionError> {
        drill_to_csv(text, out)
    }
}
