// The letters of lines, and the fields that follow each.
ghost use Rattle.std.specs.Prelude.{◌≡◌};
ghost use Rattle.std.specs.Result.{result_ok};
ghost use Rattle.drill_lines.specs.Grammar.{letter_of};
ghost use Rattle.drill_lines.specs.Automaton.{count_of, form_of};

use crate::{Letter, NoLetter};

const WORD: u8 = 8;

const PACK: u8 = 16;

impl TryFrom<u8> for Letter {
    type Error = NoLetter;

    ghost try_from_gives = { λ byte r. result_ok r ≡ letter_of byte };

    #[tactic(auto, unfolding(crate::specs::Grammar::letter_of))]
    fn try_from(byte: u8) -> Result<Letter, NoLetter> {
        match byte {
            b'N' => Ok(Letter::N),
            b'C' => Ok(Letter::C),
            b'P' => Ok(Letter::P),
            b'T' => Ok(Letter::T),
            b'D' => Ok(Letter::D),
            b'L' => Ok(Letter::L),
            b'R' => Ok(Letter::R),
            _ => Err(NoLetter),
        }
    }
}

impl Letter {
    // How many fields its line has, its own too.
    #[tactic(auto, unfolding(crate::specs::Automaton::count_of))]
    pub fn count(self) -> u8
        ensures { result ≡ count_of self }
    {
        match self {
            Letter::R => 1,
            Letter::T => 2,
            Letter::C | Letter::P | Letter::D => 3,
            Letter::N => 5,
            Letter::L => 7,
        }
    }

    // The form of a field of its line, as the number that text::complete takes; nothing follows the letter in its own.
    #[tactic(auto, unfolding(crate::specs::Automaton::form_of, crate::specs::Automaton::second_form))]
    pub fn form(self, field: u8) -> u8
        ensures { result ≡ form_of self field }
    {
        match (self, field) {
            (_, 0) => 0,
            (Letter::C, 2) => WORD,
            (Letter::P, 2) => PACK,
            _ => text::DECIMAL,
        }
    }
}
