// Reading a line byte by byte.
ghost use Rattle.std.specs.Prelude.{◌≡◌};
ghost use Rattle.drill_lines.specs.Automaton.{room, digit_count, pushed, reading, start, read, lettered, parted, extended_as, next, fed, line_with, line_read, finished};

use crate::{Fields, Letter, LiarMessage, Line, Reader};

// Whether a field with so many digits may have one more.
#[tactic(auto, unfolding(crate::specs::Automaton::room))]
fn room(form: u8, digits: u8) -> bool
    ensures { result ≡ room form digits }
{
    (form == text::DECIMAL) | (digits < form)
}

// The digits with one more.
#[tactic(auto, unfolding(crate::specs::Automaton::digit_count))]
fn digit_count(form: u8, digits: u8) -> u8
    ensures { result ≡ digit_count form digits }
{
    if form == text::DECIMAL {
        return 1;
    }
    if digits < form {
        return digits + 1;
    }
    digits
}

// The last six numbers with one more.
#[tactic(auto, unfolding(crate::specs::Automaton::pushed))]
fn pushed(numbers: [u64; 6], value: u64) -> [u64; 6]
    ensures { result ≡ pushed numbers value }
{
    [
        numbers[1], numbers[2], numbers[3], numbers[4], numbers[5], value,
    ]
}

// The first byte is read: it must be the letter of a line.
#[tactic(auto, unfolding(crate::specs::Automaton::lettered, crate::specs::Automaton::reading, crate::specs::Automaton::no_numbers))]
fn lettered(byte: u8) -> Option<Fields>
    ensures { result ≡ lettered byte }
{
    let letter = Letter::try_from(byte).ok()?;
    Some(Fields {
        letter,
        field: 0,
        digits: 0,
        value: 0,
        numbers: [0; 6],
    })
}

// A tab is read: the field must be complete, and another one must follow.
#[tactic(auto, unfolding(crate::specs::Automaton::parted, crate::specs::Automaton::reading))]
fn parted(f: Fields) -> Option<Fields>
    ensures { result ≡ parted f }
{
    if !text::complete(f.letter.form(f.field), usize::from(f.digits)) {
        return None;
    }
    if u64::from(f.letter.count()) <= u64::from(f.field) + 1 {
        return None;
    }
    Some(Fields {
        letter: f.letter,
        field: f.field + 1,
        digits: 0,
        value: 0,
        numbers: pushed(f.numbers, f.value),
    })
}

// One more digit of a field of that form is read.
#[tactic(auto, unfolding(crate::specs::Automaton::extended_as, crate::specs::Automaton::reading))]
fn extended_as(form: u8, f: Fields, byte: u8) -> Option<Fields>
    ensures { result ≡ extended_as form f byte }
{
    let d = text::digit(byte);
    let b = text::base(form);
    if !room(form, f.digits) {
        return None;
    }
    if b <= d {
        return None;
    }
    if !text::fits(f.value, b, d) {
        return None;
    }
    Some(Fields {
        digits: digit_count(form, f.digits),
        value: text::appended(f.value, b, d),
        ..f
    })
}

// One more byte of a line is read after its letter.
#[tactic(auto, unfolding(crate::specs::Automaton::next, crate::specs::Automaton::extended))]
fn next(f: Fields, byte: u8) -> Option<Fields>
    ensures { result ≡ next f byte }
{
    if byte == b'\t' {
        return parted(f);
    }
    extended_as(f.letter.form(f.field), f, byte)
}

// A line whose fields were read, or are of the wrong form.
#[tactic(auto, unfolding(crate::specs::Automaton::read))]
fn read(fields: Option<Fields>) -> Reader
    ensures { result ≡ read fields }
{
    match fields {
        Some(f) => Reader::Open(f),
        None => Reader::Bad,
    }
}

// A line of which no byte is read.
#[tactic(auto, unfolding(crate::specs::Automaton::start))]
pub fn start() -> Reader
    ensures { result ≡ start }
{
    Reader::Empty
}

// Reads one more byte of a line.
#[tactic(auto, unfolding(crate::specs::Automaton::fed))]
pub fn feed(r: Reader, byte: u8) -> Reader
    ensures { result ≡ fed r byte }
{
    match r {
        Reader::Empty => read(lettered(byte)),
        Reader::Open(f) => read(next(f, byte)),
        Reader::Bad => Reader::Bad,
    }
}

// The line of a letter and the last of six numbers.
#[tactic(auto, unfolding(crate::specs::Automaton::line_with))]
fn line_with(letter: Letter, x: [u64; 6]) -> Line
    ensures { result ≡ line_with letter x }
{
    match letter {
        Letter::N => Line::N {
            n: x[2],
            ta: x[3],
            ts: x[4],
            session: x[5],
        },
        Letter::C => Line::C {
            i: x[4],
            word: x[5],
        },
        Letter::P => Line::P {
            p: x[4],
            value: x[5],
        },
        Letter::T => Line::T { p: x[5] },
        Letter::D => Line::D { k: x[4], q: x[5] },
        Letter::L => Line::L(LiarMessage {
            p: x[0],
            q: x[1],
            kind: x[2],
            instance: x[3],
            round: x[4],
            value: x[5],
        }),
        Letter::R => Line::R,
    }
}

// The line is over: its last field must be complete, and no other one be missing.
#[tactic(auto, unfolding(crate::specs::Automaton::line_read))]
fn line_read(f: Fields) -> Option<Line>
    ensures { result ≡ line_read f }
{
    if !text::complete(f.letter.form(f.field), usize::from(f.digits)) {
        return None;
    }
    if u64::from(f.field) + 1 != u64::from(f.letter.count()) {
        return None;
    }
    Some(line_with(f.letter, pushed(f.numbers, f.value)))
}

// What the bytes read so far are as a line; None where they are of the wrong form.
#[tactic(auto, unfolding(crate::specs::Automaton::finished))]
pub fn finish(r: Reader) -> Option<Line>
    ensures { result ≡ finished r }
{
    match r {
        Reader::Open(f) => line_read(f),
        Reader::Empty | Reader::Bad => None,
    }
}
