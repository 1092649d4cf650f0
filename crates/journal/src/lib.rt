// Opening, delivery, recording and turn, each with its line of the journal. The line's bytes are asked for last.
#![tactic(auto)]

mod lines;

ghost use Rattle.std.specs.Prelude.{◌≡◌, length};
ghost use Rattle.opening.specs.Arguments.{given};
ghost use Rattle.journal.specs.Journal.{line_answer, acts, open_entry, opened_words, opened_bytes, deliver_entry, delivered_words, delivered_bytes, record_entry, record_words, record_bytes, turn_room, turned_message, turned_line};
ghost use Rattle.turn.specs.Turn.{turn_outcome, turn_words};
ghost use Rattle.delivery.specs.Delivery.{deliver_answer};

use opening::Arguments;
use settings::Refusal;
use turn::Outcome;

// The bytes that a line must be lent: more than the longest, the delivery of a COMMIT of 16 values.
pub const LINE_BYTES: usize = 512;

// Opens a session in the lent words.
pub fn open(state: &mut [u64], a: Arguments<'_>, line: &mut [u8]) -> Result<u64, Refusal>
    ensures answer { result ≡ open_entry (length state.old) (given a.entry) (length line.old) }
    ensures words { state.new ≡ opened_words state.old (given a.entry) (length line.old) }
    ensures bytes { line.new ≡ opened_bytes (length state.old) (given a.entry) line.old }
{
    if line.len() < LINE_BYTES {
        opening::answer(state.len(), a)?;
        return Err(Refusal::Short);
    }
    opening::open(state, a)?;
    Ok(lines::put_opening(line, a) as u64)
}

// Delivers a message that came over the link of a concentrator.
pub fn deliver(state: &mut [u64], link: u64, bytes: &[u8], line: &mut [u8]) -> Result<u64, Refusal>
    ensures answer { result ≡ deliver_entry state.old link bytes.now (length line.old) }
    ensures words { state.new ≡ delivered_words state.old link bytes.now (length line.old) }
    ensures bytes { line.new ≡ delivered_bytes state.old link bytes.now line.old }
{
    if line.len() < LINE_BYTES {
        delivery::judge(state, link, bytes)?;
        return Err(Refusal::Short);
    }
    delivery::deliver(state, link, bytes)?;
    Ok(lines::put_delivery(line, link, bytes) as u64)
}

// Records the bit of a vote and round.
pub fn record(
    state: &mut [u64],
    vote: u64,
    round: u64,
    bit: u64,
    line: &mut [u8],
) -> Result<u64, Refusal>
    ensures answer { result ≡ record_entry state.old vote round bit (length line.old) }
    ensures words { state.new ≡ record_words state.old vote round bit (length line.old) }
    ensures bytes { line.new ≡ record_bytes state.old vote round bit line.old }
{
    if line.len() < LINE_BYTES {
        recording::answer(state, vote, round, bit)?;
        return Err(Refusal::Short);
    }
    recording::record(state, vote, round, bit)?;
    Ok(lines::put_recording(line, vote, round, bit) as u64)
}

// Whether a turn is not idle.
fn acted(o: Outcome) -> bool
    ensures { result ≡ acts (Ok o) }
{
    !matches!(o, Outcome::Idle)
}

// The bytes that a turn gets for its message: none where its line has too few.
fn turn_room(room: usize, line: usize) -> usize
    ensures { result ≡ turn_room room line }
{
    if line < LINE_BYTES { 0 } else { room }
}

// Takes a turn: a message that is sent stands at the front of the lent bytes.
pub fn turn(state: &mut [u64], out: &mut [u8], line: &mut [u8]) -> Result<Outcome, Refusal>
    ensures answer { result ≡ turn_outcome state.old (turn_room (length out.old) (length line.old)) }
    ensures words { state.new ≡ turn_words state.old (turn_room (length out.old) (length line.old)) }
    ensures bytes { out.new ≡ turned_message state.old out.old (length line.old) }
    ensures line_bytes { line.new ≡ turned_line state.old (length out.old) line.old }
{
    let room = turn_room(out.len(), line.len());
    let o = turn::turn(state, &mut out[..room])?;
    if acted(o) {
        lines::put_turn(line);
    }
    Ok(o)
}
