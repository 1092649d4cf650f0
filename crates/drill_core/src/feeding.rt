// The bytes of the input.
ghost use Rattle.std.specs.Prelude.{◌≡◌};
ghost use Rattle.drill_core.specs.Feeding.{start_drill, next_number, next_line, with_byte, drilling, ended, fed_byte, fed_bytes, last_line, at_end};

use crate::{Drill, Phase, State, acting, preparing};
use drill_feeder::Counts;

// A drill before its input.
#[tactic(auto, unfolding(crate::specs::Feeding::start_drill))]
pub fn start() -> Drill
    ensures { result ≡ start_drill }
{
    Drill {
        state: State {
            phase: Phase::First,
            given: preparing::none_given(),
            counts: Counts {
                sent: 0,
                offered: 0,
            },
        },
        number: 1,
        begun: false,
        reader: drill_lines::start(),
    }
}

// The number of the line to be read next; after a bad line its own.
#[tactic(auto, unfolding(crate::specs::Feeding::next_number))]
fn next_number(x: Phase, number: u64) -> u64
    ensures { result ≡ next_number x number }
{
    if x.is_bad() {
        return number;
    }
    number.wrapping_add(1)
}

#[tactic(auto, unfolding(crate::specs::Feeding::next_line))]
fn next_line(s: State, number: u64) -> Drill
    ensures { result ≡ next_line s number }
{
    Drill {
        state: s,
        number: next_number(s.phase, number),
        begun: false,
        reader: drill_lines::start(),
    }
}

#[tactic(auto, unfolding(crate::specs::Feeding::with_byte))]
fn with_byte(d: Drill, byte: u8) -> Drill
    ensures { result ≡ with_byte d byte }
{
    Drill {
        begun: true,
        reader: drill_lines::feed(d.reader, byte),
        ..d
    }
}

// The line is over, and is taken.
#[tactic(auto, unfolding(crate::specs::Feeding::ended, crate::specs::Feeding::settled))]
fn end_line(d: Drill, words: &mut [u64], store: &mut [u8]) -> Drill
    ensures { drilling words.new store.new result ≡ ended (drilling words.old store.old d) }
{
    let l = drill_lines::finish(d.reader);
    let s = acting::take_line(d.state, l, words, store);
    next_line(s, d.number)
}

// Takes the next byte.
#[tactic(auto, unfolding(crate::specs::Feeding::fed_byte))]
pub fn feed(d: Drill, byte: u8, words: &mut [u64], store: &mut [u8]) -> Drill
    ensures { drilling words.new store.new result ≡ fed_byte (drilling words.old store.old d) byte }
{
    if d.state.phase.is_bad() {
        return d;
    }
    if byte == b'\n' {
        return end_line(d, words, store);
    }
    with_byte(d, byte)
}

// Takes the next bytes.
pub fn feed_all(d: Drill, bytes: &[u8], words: &mut [u64], store: &mut [u8]) -> Drill
    ensures { drilling words.new store.new result ≡ fed_bytes (drilling words.old store.old d) bytes.now }
{
    let mut e = d;
    for byte in bytes {
        e = feed(e, *byte, words, store);
    }
    e
}

// A last line without LF is a line.
#[tactic(auto, unfolding(crate::specs::Feeding::last_line))]
fn last_line(d: Drill, words: &mut [u64], store: &mut [u8]) -> Drill
    ensures { drilling words.new store.new result ≡ last_line (drilling words.old store.old d) }
{
    if d.begun {
        return end_line(d, words, store);
    }
    d
}

// The input is over; the sessions are opened if they are not.
#[tactic(auto, unfolding(crate::specs::Feeding::at_end, crate::specs::Feeding::all_open))]
pub fn end_input(d: Drill, words: &mut [u64], store: &mut [u8]) -> Drill
    ensures { drilling words.new store.new result ≡ at_end (drilling words.old store.old d) }
{
    let e = last_line(d, words, store);
    acting::begin(e.state, words);
    e
}
