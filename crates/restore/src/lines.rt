// The lines of a journal, each applied to the words of a state.
ghost use Rattle.std.specs.Prelude.{◌≤◌, [], ◌∷◌, length, take, ◌≡◌};
ghost use Rattle.restore.specs.Restoring.{delivered_from, turned_from, recorded_from, next_line};
ghost use Rattle.restore.specs.laws.Parts.{fields_at};
ghost use Rattle.restore.specs.laws.Applying.{delivered_hex, Tried};
ghost use Rattle.restore.specs.laws.Recorded.{counted_recording, RecordGiven};
ghost use Rattle.restore.specs.laws.Turning.{Took, outcome_applied, taken_applied};

use crate::{fields, first};
use settings::Refusal;
use turn::Outcome;

const LETTER_D: u8 = b'D';

const LETTER_T: u8 = b'T';

const LETTER_K: u8 = b'K';

// Delivers the bytes of a field over a link. More bytes than a message can have are refused in any state.
fn deliver_hex(copy: &mut [u64], link: u64, h: &[u8]) -> bool
    ensures { Tried (delivered_hex copy.old link h.now) copy.old result copy.new }
{
    let mut bytes = [0u8; 140];
    let Some(k) = fields::read_bytes(h, &mut bytes) else {
        return false;
    };
    delivery::deliver(copy, link, &bytes[..k]).is_ok()
}

// Delivers by a link and bytes as they are written.
fn deliver_fields(copy: &mut [u64], l: &[u8], h: &[u8]) -> bool
    ensures { Tried (delivered_from copy.old (l.now ∷ h.now ∷ [])) copy.old result copy.new }
{
    let Some(link) = fields::read_number(l, text::DECIMAL) else {
        return false;
    };
    deliver_hex(copy, link, h)
}

// Applies a `D` line, whose fields after the letter start at a place.
fn deliver_line(copy: &mut [u64], line: &[u8], at: usize) -> bool
    requires { at ≤ length line.now }
    ensures { Tried (delivered_from copy.old (fields_at line.now at)) copy.old result copy.new }
{
    let e = fields::field_end(line, at);
    if e == line.len() {
        return false;
    }
    let start = e + 1;
    let g = fields::field_end(line, start);
    if g < line.len() {
        return false;
    }
    deliver_fields(copy, &line[at..e], &line[start..g])
}

// Records the bit that so many numbers of a line name: vote, round, bit.
fn record_numbers(copy: &mut [u64], count: usize, values: &[u64]) -> bool
    requires { RecordGiven count values.now }
    ensures { Tried (counted_recording copy.old (take count values.now)) copy.old result copy.new }
{
    if count != 3 {
        return false;
    }
    recording::record(copy, values[0], values[1], values[2]).is_ok()
}

// Applies a `K` line, whose fields after the letter start at a place.
fn record_line(copy: &mut [u64], line: &[u8], at: usize) -> bool
    requires { at ≤ length line.now }
    ensures { Tried (recorded_from copy.old (fields_at line.now at)) copy.old result copy.new }
{
    let mut values = [0u64; 3];
    let Some(count) = first::read_all(line, at, 1, &mut values) else {
        return false;
    };
    record_numbers(copy, count, &values)
}

// The length of the message of a line, 0 for none, or nothing where the line cannot be applied. A delivery or a recording has no message.
fn by_taken(taken: bool) -> Option<u64>
    ensures { result ≡ taken_applied taken }
{
    if taken {
        return Some(0);
    }
    None
}

// A turn as a line: one that is refused or idle cannot be applied.
fn by_outcome(taken: Result<Outcome, Refusal>) -> Option<u64>
    ensures { result ≡ outcome_applied taken }
{
    let Ok(outcome) = taken else {
        return None;
    };
    match outcome {
        Outcome::Idle => None,
        Outcome::Sent(m) => Some(wire::message_length(m) as u64),
        Outcome::MovedOut => Some(0),
        Outcome::InForce => Some(0),
    }
}

// Applies a `T` line.
fn turn_line(copy: &mut [u64], message: &mut [u8]) -> Option<u64>
    requires { 140 ≤ length message.old }
    ensures { Took (turned_from copy.old []) copy.old message.old result copy.new message.new }
{
    by_outcome(turn::turn(copy, message))
}

// Applies a further line. The message of a `T` is written into the lent bytes.
pub fn apply_line(copy: &mut [u64], line: &[u8], message: &mut [u8]) -> Option<u64>
    requires { 140 ≤ length message.old }
    ensures { Took (next_line copy.old line.now) copy.old message.old result copy.new message.new }
{
    let e = fields::field_end(line, 0);
    let c = fields::letter(&line[..e]);
    if c == LETTER_D {
        if e == line.len() {
            return None;
        }
        return by_taken(deliver_line(copy, line, e + 1));
    }
    if c == LETTER_K {
        if e == line.len() {
            return None;
        }
        return by_taken(record_line(copy, line, e + 1));
    }
    if c != LETTER_T {
        return None;
    }
    if e < line.len() {
        return None;
    }
    turn_line(copy, message)
}
