// The records of what a turn does.
ghost use Rattle.std.specs.Prelude.{◌≡◌, ◌≤◌};
ghost use Rattle.records.specs.Records.{turn_count};
ghost use Rattle.turn.specs.Turn.{with_turn_counted, entered, new_decision, move_decided, moved, done, applied};

use acts::{Act, View};
use records::writing;
use settings::Settings;

// Counts a turn.
fn count_turn(s: &mut [u64])
    requires { turn_count s.old ≤ 65535 }
    ensures { s.new ≡ with_turn_counted s.old }
{
    let t = records::turn_count(s);
    writing::set_turn_count(s, t + 1);
}

// Enters round r of vote i, and marks its EST as sent; round 33 has none.
fn enter(s: &mut [u64], i: u8, r: u16, b: u8)
    ensures { s.new ≡ entered s.old i r b }
{
    writing::set_round(s, i, r);
    if (Settings::ROUND_LIMIT as u16) < r {
        return;
    }
    writing::mark_est_sent(s, i, r, b);
}

// Whether a move decides vote i: its one value is the coin, and no decision stands.
fn move_decides(s: &[u64], i: u8, r: u8, v: View) -> bool
    ensures { result ≡ new_decision s.now i r v }
{
    !records::decided(s, i) & votes::decides(records::coin(s, i, r), v)
}

// Takes the decision of a move out of round r of vote i.
fn decide_move(s: &mut [u64], i: u8, r: u8, v: View)
    ensures { s.new ≡ move_decided s.old i r v }
{
    let b = votes::estimate(records::coin(s, i, r), v);
    if move_decides(s, i, r, v) {
        writing::decide(s, i, b);
    }
}

// Moves vote i out of round r.
fn move_vote(s: &mut [u64], i: u8, r: u8, v: View)
    ensures { s.new ≡ moved s.old i r v }
{
    let b = votes::estimate(records::coin(s, i, r), v);
    decide_move(s, i, r, v);
    enter(s, i, r as u16 + 1, b);
}

// Marks an act as done.
fn mark_act(s: &mut [u64], a: Act)
    ensures { s.new ≡ done s.old a }
{
    match a {
        Act::Idle => {}
        Act::InForce => writing::mark_closed(s),
        Act::Commit(_) => writing::mark_commit_sent(s),
        Act::Send(_) => writing::mark_send_sent(s),
        Act::Echo(i, _) => writing::mark_echo_sent(s, i),
        Act::Ready(i, _) => writing::mark_ready_sent(s, i),
        Act::Start(i, b) => enter(s, i, 1, b),
        Act::Relay(i, r, b) => writing::mark_est_sent(s, i, r as u16, b),
        Act::Aux(i, r, _) => writing::mark_aux_sent(s, i, r),
        Act::Move(i, r, v) => move_vote(s, i, r, v),
        Act::Finish(i, _) => writing::mark_finish_sent(s, i),
    }
}

// Records an act, and counts its turn unless it is idle.
pub fn apply(s: &mut [u64], a: Act)
    requires { turn_count s.old ≤ 65535 }
    ensures { s.new ≡ applied s.old a }
{
    if acts::is_due(a) {
        count_turn(s);
        mark_act(s, a);
    }
}
