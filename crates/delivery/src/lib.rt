// Delivery: the verdict on a message, then its record.
#![tactic(auto)]

ghost use Rattle.std.specs.Prelude.{◌≡◌, true};
ghost use Rattle.records.specs.Writing.{with_est, with_finish, with_commit_values, with_commit};
ghost use Rattle.wire.specs.Bytes.{value_at};
ghost use Rattle.delivery.specs.Delivery.{place_held, judged, verdict, first_noted, finish_settled, recorded, answer_of, deliver_answer, delivered};
ghost use Rattle.session.specs.Session.{is_state, settings_of};
ghost use Rattle.delivery.specs.laws.Stored.{verdict_for};

use records::{layout, writing};
use session::Session;
use settings::{Refusal, Settings};
use wire::Message;

// Whether the place of a message of sender p is taken.
fn place_held(s: &[u64], p: u8, m: Message) -> bool
    ensures { result ≡ place_held s.now p m }
{
    match m {
        Message::Send { instance, .. } => records::send_held(s, instance),
        Message::Echo { instance, .. } => records::echo_held(s, instance, p),
        Message::Ready { instance, .. } => records::ready_held(s, instance, p),
        Message::Est {
            instance,
            round,
            value,
        } => records::est_held(s, instance, round, value, p),
        Message::Aux {
            instance,
            round,
            ..
        } => records::aux_held(s, instance, round, p),
        Message::Commit { .. } => commits::commit_held(s, p),
        Message::Finish { instance, .. } => records::finish_held(s, instance, p),
    }
}

// The verdict in a session.
fn verdict_in(s: &[u64], x: Session, link: u64, bytes: &[u8]) -> Result<Message, Refusal>
    ensures { result ≡ verdict_for (Some x) s.now link bytes.now }
{
    if records::closed(s) {
        return Err(Refusal::Closed);
    }
    let m = wire::read_message(bytes, records::version(s), x.settings.n, x.number, link)?;
    if place_held(s, link as u8, m) {
        return Err(Refusal::Held);
    }
    Ok(m)
}

// The verdict: 9, 10, 2 to 7, 11 in this order, or the message.
pub fn judge(s: &[u64], link: u64, bytes: &[u8]) -> Result<Message, Refusal>
    ensures { result ≡ verdict s.now link bytes.now }
{
    // `state_of` asks the same: here it tells the compiler for all that is read later.
    if s.len() != layout::STATE_WORDS {
        return Err(Refusal::NoState);
    }
    // Borrowed afresh: the slice itself would be copied in one piece, right after its two parts were stored (docs/PERFORMANCE.md).
    let Some(x) = session::state_of(&*s) else {
        return Err(Refusal::NoState);
    };
    verdict_in(s, x, link, bytes)
}

// Stores the first count values of a COMMIT of sender p.
fn record_values(s: &mut [u64], p: u8, count: u8, part: &[u8])
    ensures { s.new ≡ with_commit_values s.old p (value_at part.now) count }
{
    for j in 0..count {
        let k = j + 1;
        writing::put_commit_value(s, p, k, wire::value_at(part, k));
    }
}

fn record_commit(s: &mut [u64], p: u8, count: u8, part: &[u8])
    ensures { s.new ≡ with_commit s.old p (value_at part.now) count }
{
    record_values(s, p, count, part);
    writing::hold_commit(s, p, count);
}

// Holds EST 1 of sender p in round r of vote i, and marks it where 1 was accepted before 0.
fn hold_one(s: &mut [u64], g: Settings, p: u8, i: u8, r: u8)
    ensures { s.new ≡ first_noted g (with_est s.old i r 1 p) i r 1 }
{
    writing::hold_est(s, i, r, 1, p);
    if votes::one_alone(s, g, i, r) {
        writing::mark_one_first(s, i, r);
    }
}

// Holds EST b; only one of 1 needs the settings of the state.
fn record_est(s: &mut [u64], p: u8, i: u8, r: u8, b: u8)
    requires { is_state s.old ≡ true }
    ensures { s.new ≡ first_noted (settings_of s.old) (with_est s.old i r b p) i r b }
{
    if b == 1 {
        hold_one(s, session::settings_of(&*s), p, i, r);
        return;
    }
    writing::hold_est(s, i, r, b, p);
}

// Holds FINISH b of sender p in vote i, and decides the vote where its FINISHes do.
fn settle_finish(s: &mut [u64], g: Settings, p: u8, i: u8, b: u8)
    ensures { s.new ≡ finish_settled g (with_finish s.old i b p) i b }
{
    writing::hold_finish(s, i, b, p);
    if votes::finish_decides(s, g, i, b) {
        writing::decide(s, i, b);
    }
}

// The same with the settings of the state.
fn record_finish(s: &mut [u64], p: u8, i: u8, b: u8)
    requires { is_state s.old ≡ true }
    ensures { s.new ≡ finish_settled (settings_of s.old) (with_finish s.old i b p) i b }
{
    settle_finish(s, session::settings_of(&*s), p, i, b);
}

// Records a message of sender p; the values of a COMMIT are in the part that starts at byte 12.
fn record(s: &mut [u64], p: u8, m: Message, part: &[u8])
    requires { is_state s.old ≡ true }
    ensures { s.new ≡ recorded s.old p m part.now }
{
    match m {
        Message::Send { instance, value } => writing::hold_send(s, instance, value),
        Message::Echo { instance, value } => writing::hold_echo(s, instance, p, value),
        Message::Ready { instance, value } => writing::hold_ready(s, instance, p, value),
        Message::Est {
            instance,
            round,
            value,
        } => record_est(s, p, instance, round, value),
        Message::Aux {
            instance,
            round,
            value,
        } => writing::hold_aux(s, instance, round, value, p),
        Message::Commit { count } => record_commit(s, p, count, part),
        Message::Finish { instance, value } => record_finish(s, p, instance, value),
    }
}

// Delivers a message that came over the link of a concentrator; a refusal leaves the words.
pub fn deliver(state: &mut [u64], link: u64, bytes: &[u8]) -> Result<(), Refusal>
    ensures answer { result ≡ deliver_answer state.old link bytes.now }
    ensures words { state.new ≡ delivered state.old link bytes.now }
{
    // Borrowed afresh, as in `judge`.
    let m = judge(state, link, &*bytes)?;
    record(state, link as u8, m, &bytes[12..]);
    Ok(())
}
