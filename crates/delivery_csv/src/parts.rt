// The front of a text that ends with an end of a record or line: it can be converted before the rest is there.
ghost use Rattle.std.specs.Prelude.{◌≡◌};
ghost use Rattle.delivery_csv.specs.Parts.{part_with, ended_part};

use crate::LF;
use crate::direction::Direction;

#[derive(Clone, Copy)]
pub struct Part {
    // Its bytes.
    pub length: usize,
    // How many records or lines it has.
    pub count: u64,
}

// The part once a byte is passed, and `passed` bytes with it.
#[tactic(auto, using(crate::specs::laws::Walk::part_with_cases))]
fn part_with(most: u64, inside: bool, passed: usize, part: Part, byte: u8) -> Part
    ensures { result ≡ part_with most inside passed part byte }
{
    if (byte != LF) | inside {
        return part;
    }
    let count = part.count;
    if most <= count {
        return part;
    }
    Part {
        length: passed,
        count: count + 1,
    }
}

// The longest front of a text with at most `most` ends of records, or of lines where quotes do not count, and an end last.
pub fn ended_part<D: Direction>(text: &[u8], most: u64) -> Part
    ensures { result ≡ ended_part D.quotes text.now most }
{
    let mut part = Part {
        length: 0,
        count: 0,
    };
    let mut inside = false;
    for (k, &byte) in text.iter().enumerate() {
        part = part_with(most, inside, k + 1, part, byte);
        inside = D::turned(inside, byte);
    }
    part
}
