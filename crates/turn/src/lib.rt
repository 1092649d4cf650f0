// A turn: what is due, then the message and the records of it.
#![tactic(auto)]

mod apply;
mod due;

ghost use Rattle.std.specs.Prelude.{◌≡◌, length};
ghost use Rattle.turn.specs.Due.{due};
ghost use Rattle.turn.specs.Turn.{move_outcome, outcome_of, applied, admits, bytes_after, turn_outcome, turn_words, turn_bytes};
ghost use Rattle.turn.specs.laws.Admitting.{Admitting};
ghost use Rattle.turn.specs.laws.Taking.{written_for};

use acts::{Act, View};
use records::layout;
use session::Session;
use settings::{Refusal, Settings};
use wire::Message;

// The answer of a turn.
#[derive(Clone, Copy)]
pub enum Outcome {
    Idle,
    // A COMMIT's values stand beside it, in the lent bytes.
    Sent(Message),
    MovedOut,
    InForce,
}

// The bytes that a turn must be lent: the longest message, a COMMIT of 16 values.
pub const MESSAGE_BYTES: usize = 140;

// Turn 9, 10, 8.
fn admit(s: &[u64], room: usize) -> Result<Session, Refusal>
    ensures { result ≡ admits s.now room }
{
    // `state_of` asks the same: here it tells the compiler for all that is read later.
    if s.len() != layout::STATE_WORDS {
        return Err(Refusal::NoState);
    }
    let Some(x) = session::state_of(s) else {
        return Err(Refusal::NoState);
    };
    if records::closed(s) {
        return Err(Refusal::Closed);
    }
    if room < MESSAGE_BYTES {
        return Err(Refusal::Short);
    }
    Ok(x)
}

// The EST of the round that a move enters; out of round 32 there is none.
fn move_outcome(s: &[u64], i: u8, r: u8, v: View) -> Outcome
    ensures { result ≡ move_outcome s.now i r v }
{
    if r < Settings::ROUND_LIMIT {
        let b = votes::estimate(records::coin(s, i, r), v);
        return Outcome::Sent(Message::Est {
            instance: i,
            round: r + 1,
            value: b,
        });
    }
    Outcome::MovedOut
}

// The outcome of an act of concentrator own.
fn outcome_of(s: &[u64], own: u8, a: Act) -> Outcome
    ensures { result ≡ outcome_of own s.now a }
{
    match a {
        Act::Idle => Outcome::Idle,
        Act::InForce => Outcome::InForce,
        Act::Commit(k) => Outcome::Sent(Message::Commit { count: k }),
        Act::Send(v) => Outcome::Sent(Message::Send {
            instance: own,
            value: v,
        }),
        Act::Echo(i, v) => Outcome::Sent(Message::Echo {
            instance: i,
            value: v,
        }),
        Act::Ready(i, v) => Outcome::Sent(Message::Ready {
            instance: i,
            value: v,
        }),
        Act::Start(i, b) => Outcome::Sent(Message::Est {
            instance: i,
            round: 1,
            value: b,
        }),
        Act::Relay(i, r, b) => Outcome::Sent(Message::Est {
            instance: i,
            round: r,
            value: b,
        }),
        Act::Aux(i, r, b) => Outcome::Sent(Message::Aux {
            instance: i,
            round: r,
            value: b,
        }),
        Act::Move(i, r, v) => move_outcome(s, i, r, v),
        Act::Finish(i, b) => Outcome::Sent(Message::Finish {
            instance: i,
            value: b,
        }),
    }
}

// Writes the message of an outcome that has one, in a session of that version.
fn write_outcome(o: Outcome, version: u8, x: Session, set: &[u64; 16], out: &mut [u8])
    ensures { out.new ≡ written_for version x o set.now out.old }
{
    match o {
        Outcome::Idle => {}
        Outcome::Sent(m) => {
            wire::write_message(m, version, x.own, x.number, set, out);
        }
        Outcome::MovedOut => {}
        Outcome::InForce => {}
    }
}

// A turn that is admitted: what is due, its message, its records.
fn take_turn(state: &mut [u64], x: Session, out: &mut [u8]) -> Outcome
    requires { Admitting state.old (length out.old) x }
    ensures answer { result ≡ outcome_of x.own state.old (due x.settings state.old) }
    ensures words { state.new ≡ applied state.old (due x.settings state.old) }
    ensures bytes { out.new ≡ bytes_after x state.old (outcome_of x.own state.old (due x.settings state.old)) out.old }
{
    let mut set = [0u64; 16];
    let a = due::due(state, x.settings, &mut set);
    let o = outcome_of(state, x.own, a);
    write_outcome(o, records::version(state) as u8, x, &set, out);
    apply::apply(state, a);
    o
}

// Takes a turn, and answers its outcome; a refusal leaves the words and the bytes.
pub fn turn(state: &mut [u64], out: &mut [u8]) -> Result<Outcome, Refusal>
    ensures answer { result ≡ turn_outcome state.old (length out.old) }
    ensures words { state.new ≡ turn_words state.old (length out.old) }
    ensures bytes { out.new ≡ turn_bytes state.old out.old }
{
    let x = admit(state, out.len())?;
    Ok(take_turn(state, x, out))
}
