// Lines in numbers.
ghost use Rattle.std.specs.Prelude.{◌≡◌};
ghost use Rattle.drill_lines.specs.Raw.{reader_of};

use crate::{Fields, Letter, NoLetter, Reader};

// A line as far as it is read, in numbers: any may stand for its letter, 0 before it is read, and any beside a line that is wrong.
#[derive(Clone, Copy)]
pub struct RawReader {
    pub kind: u8,
    pub field: u8,
    pub digits: u8,
    pub value: u64,
    pub numbers: [u64; 6],
    pub bad: bool,
}

impl From<RawReader> for Reader {
    ghost from_gives = { λ x r. r ≡ reader_of x };

    #[tactic(auto, unfolding(crate::specs::Raw::reader_of, crate::specs::Automaton::reading, crate::specs::Automaton::read))]
    fn from(x: RawReader) -> Reader {
        if x.bad {
            return Reader::Bad;
        }
        if x.kind == 0 {
            return Reader::Empty;
        }
        let numbers = x.numbers;
        match Letter::try_from(x.kind) {
            Ok(letter) => Reader::Open(Fields {
                letter,
                field: x.field,
                digits: x.digits,
                value: x.value,
                numbers,
            }),
            Err(NoLetter) => Reader::Bad,
        }
    }
}
