// The lines of the drill program: what a line of its input is taken as, and the bytes that it prints.
#![tactic(auto)]

mod letters;
mod printing;
mod raw;
mod reading;

ghost use Rattle.drill_lines.specs.Raw.{RawReaders};
ghost use Rattle.drill_lines.specs.Theorem.{ReadsLines};

pub use printing::{put_bad, put_result, put_sent};
pub use raw::RawReader;
pub use reading::{feed, finish, start};

// The letter that a line begins with.
#[derive(Clone, Copy)]
pub enum Letter {
    N,
    C,
    P,
    T,
    D,
    L,
    R,
}

// A byte that no line begins with.
#[derive(Clone, Copy)]
pub struct NoLetter;

// A line by its letter, with its fields under their names in PROTOCOL 15.3 to 15.9.
#[derive(Clone, Copy)]
pub enum Line {
    N {
        n: u64,
        ta: u64,
        ts: u64,
        session: u64,
    },
    C {
        i: u64,
        word: u64,
    },
    P {
        p: u64,
        value: u64,
    },
    T {
        p: u64,
    },
    D {
        k: u64,
        q: u64,
    },
    L(LiarMessage),
    R,
}

// A message that a liar p sends to q, as an L line names it.
#[derive(Clone, Copy)]
pub struct LiarMessage {
    pub p: u64,
    pub q: u64,
    pub kind: u64,
    pub instance: u64,
    pub round: u64,
    pub value: u64,
}

// The fields of a line that may still be of the right form, as far as they are read.
#[derive(Clone, Copy)]
pub struct Fields {
    pub letter: Letter,
    // How many tabs are read.
    pub field: u8,
    // The digits of the field being read: in a decimal 1 stands for one or more.
    pub digits: u8,
    // The number of these digits.
    pub value: u64,
    // The numbers of the last six fields that are over, the newest last.
    pub numbers: [u64; 6],
}

// A line as far as it is read.
#[derive(Clone, Copy)]
pub enum Reader {
    Empty,
    Open(Fields),
    // It is of the wrong form, whatever follows.
    Bad,
}

// What an honest concentrator's line says before its packs in force (PROTOCOL 15.15).
#[derive(Clone, Copy)]
pub struct SessionResult {
    pub number: u64,
    pub exit: u64,
    pub closed: u64,
    pub turns: u64,
}

// The bytes of any line, read one after the other, come to the line of the definition.
pub fn reads_lines()
    ensures { ReadsLines }
{}

// A line that is read on, or ended, in numbers is the line of the reader that they stand for.
pub fn raw_readers()
    ensures { RawReaders }
{}
