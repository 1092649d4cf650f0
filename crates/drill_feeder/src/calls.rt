// The engine's calls on the parts of the memory.
ghost use Rattle.std.specs.Prelude.{◌≡◌, length};
ghost use Rattle.records.specs.Records.{closed};
ghost use Rattle.opening.specs.Arguments.{given};
ghost use Rattle.opening.specs.Opening.{opened};
ghost use Rattle.delivery.specs.Delivery.{delivered};
ghost use Rattle.turn.specs.Turn.{turn_outcome, turn_words, turn_bytes};
ghost use Rattle.report.specs.Report.{report_answer, report_named, report_in_force};
ghost use Rattle.drill_feeder.specs.Parts.{state_of, with_state, room_for, with_room};
ghost use Rattle.drill_feeder.specs.Lines.{drill_arguments, opened_at, delivered_to};

use crate::parts;
use opening::Arguments;
use records::layout;
use report::Figures;
use settings::Refusal;
use turn::Outcome;

// A turn, an opening and a delivery, lent bytes for a line that a drill does not keep.
fn take_turn(state: &mut [u64], out: &mut [u8]) -> Result<Outcome, Refusal>
    ensures answer { result ≡ turn_outcome state.old (length out.old) }
    ensures words { state.new ≡ turn_words state.old (length out.old) }
    ensures bytes { out.new ≡ turn_bytes state.old out.old }
{
    let mut line = [0u8; journal::LINE_BYTES];
    journal::turn(state, out, &mut line)
}

fn deliver(state: &mut [u64], link: u64, bytes: &[u8])
    ensures { state.new ≡ delivered state.old link bytes.now }
{
    let mut line = [0u8; journal::LINE_BYTES];
    let _ = journal::deliver(state, link, bytes, &mut line);
}

fn open(state: &mut [u64], a: Arguments<'_>)
    ensures { state.new ≡ opened state.old (given a.entry) }
{
    let mut line = [0u8; journal::LINE_BYTES];
    let _ = journal::open(state, a, &mut line);
}

// A turn of session p, lent the room of message sent + 1.
pub fn turn_of(words: &mut [u64], store: &mut [u8], p: u8, sent: u16) -> Result<Outcome, Refusal>
    ensures answer { result ≡ turn_outcome (state_of words.old p) (length (room_for store.old sent)) }
    ensures state { words.new ≡ with_state words.old p (turn_words (state_of words.old p) (length (room_for store.old sent))) }
    ensures message { store.new ≡ with_room store.old sent (turn_bytes (state_of words.old p) (room_for store.old sent)) }
{
    let a = parts::state(words.len(), p);
    let b = parts::room(store.len(), sent);
    take_turn(&mut words[a.start..a.end], &mut store[b.start..b.end])
}

// Delivers bytes to session q over the link of a concentrator.
pub fn deliver_to(words: &mut [u64], q: u8, link: u8, bytes: &[u8])
    ensures { words.new ≡ delivered_to words.old q link bytes.now }
{
    let a = parts::state(words.len(), q);
    deliver(&mut words[a.start..a.end], u64::from(link), bytes);
}

// Opens session p, with weights of 1.
pub fn open_at(
    words: &mut [u64],
    p: u8,
    n: u64,
    ta: u64,
    ts: u64,
    session: u32,
    input: u64,
    coins: &[u32],
)
    ensures { words.new ≡ opened_at words.old (drill_arguments n ta ts p session input coins.now) }
{
    let at = parts::state(words.len(), p);
    let ones = [1u8; 16];
    let b = parts::part_of(ones.len(), 0, n as usize);
    // Drills are of version 1, and printed (PROTOCOL 15.3).
    let a = Arguments {
        version: 1,
        n,
        ta,
        ts,
        own: u64::from(p),
        session,
        input,
        coins,
        weights: &ones[b.start..b.end],
        boxed: 0,
    };
    open(&mut words[at.start..at.end], a);
}

// The report of session p.
pub fn report_of(
    words: &[u64],
    p: u8,
    named: &mut [u64],
    in_force: &mut [u64],
) -> Result<Figures, Refusal>
    ensures answer { result ≡ report_answer (state_of words.now p) (length named.old) (length in_force.old) }
    ensures named_words { named.new ≡ report_named (state_of words.now p) named.old (length in_force.old) }
    ensures in_force_words { in_force.new ≡ report_in_force (state_of words.now p) (length named.old) in_force.old }
{
    let a = parts::state(words.len(), p);
    report::report(&words[a.start..a.end], named, in_force)
}

// Whether session p is closed.
pub fn closed_of(words: &[u64], p: u8) -> bool
    ensures { result ≡ closed (state_of words.now p) }
{
    let a = parts::state(words.len(), p);
    records::closed(&words[a.start..a.end])
}
