// Converting an input of which only a part is there at a time.
ghost use Rattle.std.specs.Prelude.{◌≡◌, length};
ghost use Rattle.delivery_csv.specs.Fields.{bad, good};
ghost use Rattle.delivery_csv.specs.Converting.{bytes_after};
ghost use Rattle.delivery_csv.specs.Stream.{converted, output_of, ended_length, ended_output, ended_progress, last_progress};
ghost use Rattle.delivery_csv.specs.laws.Progress.{refused_progress};

use crate::ConversionError;
use crate::direction::Direction;
use crate::parts::{Part, ended_part};

// The longest rest without an end that can still become a record or line that is taken is shorter.
const MAX_REST: usize = 4096;

// Why a conversion ends before the input.
#[derive(Clone, Copy, Debug, PartialEq, Eq)]
pub enum Stop {
    // The lent bytes are too few.
    Short,
    // The text of `count` records or lines is written, and the one after them is not taken.
    Refused { written: usize, count: u64 },
}

// The text of the first `length` bytes, which are `count` records or lines, is written.
#[derive(Clone, Copy, Debug, PartialEq, Eq)]
pub struct Progress {
    pub written: usize,
    pub length: usize,
    pub count: u64,
}

// Converts what stands before record or line n, which is not taken.
fn convert_before<D: Direction>(text: &[u8], n: u64, out: &mut [u8]) -> Stop
    requires { converted D.quotes text.now ≡ bad n }
    ensures answer { result ≡ refused_progress (output_of D.quotes text.now) (length out.old) }
    ensures bytes { out.new ≡ bytes_after (good (output_of D.quotes text.now).text) out.old }
{
    let part = ended_part::<D>(text, n - 1);
    match D::convert(&text[..part.length], out) {
        Ok(written) => Stop::Refused {
            written,
            count: part.count,
        },
        Err(_) => Stop::Short,
    }
}

// Converts an input that is over, or what stands before the first record or line of it that is not taken. The answer is how many bytes
// were written.
pub fn convert_rest<D: Direction>(text: &[u8], out: &mut [u8]) -> Result<usize, Stop>
    ensures answer { result ≡ last_progress (output_of D.quotes text.now) (length out.old) }
    ensures bytes { out.new ≡ bytes_after (good (output_of D.quotes text.now).text) out.old }
{
    match D::convert(text, out) {
        Ok(written) => Ok(written),
        Err(ConversionError::Record(n)) => Err(convert_before::<D>(text, n, out)),
        Err(ConversionError::Short) => Err(Stop::Short),
    }
}

// Converts the ended part of the bytes that are there.
pub fn convert_ended<D: Direction>(text: &[u8], out: &mut [u8]) -> Result<Progress, Stop>
    ensures answer { result ≡ ended_progress (ended_output D.quotes text.now) (ended_length D.quotes text.now) (length out.old) }
    ensures bytes { out.new ≡ bytes_after (good (ended_output D.quotes text.now).text) out.old }
{
    let Part { length, count } = ended_part::<D>(text, text.len() as u64);
    let written = convert_rest::<D>(&text[..length], out)?;
    if MAX_REST <= text.len() - length {
        return Err(Stop::Refused { written, count });
    }
    Ok(Progress {
        written,
        length,
        count,
    })
}
