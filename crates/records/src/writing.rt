// Writers of the records: messages that are held, what was sent, and how far the session is.
ghost use Rattle.std.specs.Prelude.{◌≡◌};
ghost use Rattle.records.specs.Layout.{commit_value_at};
ghost use Rattle.records.specs.Words.{put, set_mark};
ghost use Rattle.records.specs.Writing.{with_send, with_echo, with_ready, with_est, with_aux, with_one_first, with_finish, with_commit_count};
ghost use Rattle.records.specs.Writing.{with_closed, with_send_sent, with_commit_sent, with_echo_sent, with_ready_sent, with_finish_sent, with_est_sent, with_aux_sent, with_round, with_decision, with_turn_count};

use crate::layout;

// Puts a value at a word, and sets mark p of another.
fn hold_value(s: &mut [u64], at: usize, v: u64, marks: usize, p: u64)
    ensures { s.new ≡ set_mark (put s.old at v) marks p }
{
    crate::put(s, at, v);
    crate::set_mark(s, marks, p);
}

// Holds the SEND of instance i.
pub fn hold_send(s: &mut [u64], i: u8, v: u64)
    ensures { s.new ≡ with_send s.old i v }
{
    hold_value(
        s,
        layout::SEND_VALUES + i as usize,
        v,
        layout::SEND_MARKS,
        i as u64,
    );
}

// Holds the ECHO of sender p in instance i.
pub fn hold_echo(s: &mut [u64], i: u8, p: u8, v: u64)
    ensures { s.new ≡ with_echo s.old i p v }
{
    hold_value(
        s,
        layout::ECHO_VALUES + 16 * i as usize + p as usize,
        v,
        layout::ECHO_MARKS + i as usize,
        p as u64,
    );
}

// Holds the READY of sender p in instance i.
pub fn hold_ready(s: &mut [u64], i: u8, p: u8, v: u64)
    ensures { s.new ≡ with_ready s.old i p v }
{
    hold_value(
        s,
        layout::READY_VALUES + 16 * i as usize + p as usize,
        v,
        layout::READY_MARKS + i as usize,
        p as u64,
    );
}

// Holds EST b of sender p in round r of vote i.
pub fn hold_est(s: &mut [u64], i: u8, r: u8, b: u8, p: u8)
    ensures { s.new ≡ with_est s.old i r b p }
{
    crate::set_mark(
        s,
        layout::VOTES + 32 * i as usize + r as usize,
        layout::GROUP * b as u64 + p as u64,
    );
}

// Holds AUX b of sender p in round r of vote i.
pub fn hold_aux(s: &mut [u64], i: u8, r: u8, b: u8, p: u8)
    ensures { s.new ≡ with_aux s.old i r b p }
{
    crate::set_mark(
        s,
        layout::VOTES + 32 * i as usize + r as usize,
        layout::AUX_ZERO + layout::GROUP * b as u64 + p as u64,
    );
}

// Marks that in round r of vote i 1 was accepted before 0.
pub fn mark_one_first(s: &mut [u64], i: u8, r: u8)
    ensures { s.new ≡ with_one_first s.old i r }
{
    crate::set_mark(s, layout::ONE_FIRST + i as usize, r as u64);
}

// Holds FINISH b of sender p in vote i.
pub fn hold_finish(s: &mut [u64], i: u8, b: u8, p: u8)
    ensures { s.new ≡ with_finish s.old i b p }
{
    crate::set_mark(
        s,
        layout::FINISH_MARKS + i as usize,
        layout::GROUP * b as u64 + p as u64,
    );
}

// Puts value k of the COMMIT of sender p.
pub fn put_commit_value(s: &mut [u64], p: u8, k: u8, v: u64)
    ensures { s.new ≡ put s.old (commit_value_at p k) v }
{
    crate::put(s, layout::COMMIT_VALUES + 16 * p as usize + k as usize, v);
}

// Holds a COMMIT of sender p, whose values were put before: their number.
pub fn hold_commit(s: &mut [u64], p: u8, count: u8)
    ensures { s.new ≡ with_commit_count s.old p count }
{
    crate::put(s, layout::COMMIT_COUNTS + p as usize, count as u64);
}

pub fn mark_closed(s: &mut [u64])
    ensures { s.new ≡ with_closed s.old }
{
    crate::set_mark(s, layout::FLAGS, layout::CLOSED_MARK);
}

pub fn mark_send_sent(s: &mut [u64])
    ensures { s.new ≡ with_send_sent s.old }
{
    crate::set_mark(s, layout::FLAGS, layout::SEND_SENT_MARK);
}

pub fn mark_commit_sent(s: &mut [u64])
    ensures { s.new ≡ with_commit_sent s.old }
{
    crate::set_mark(s, layout::FLAGS, layout::COMMIT_SENT_MARK);
}

pub fn mark_echo_sent(s: &mut [u64], i: u8)
    ensures { s.new ≡ with_echo_sent s.old i }
{
    crate::set_mark(s, layout::ECHO_SENT, i as u64);
}

pub fn mark_ready_sent(s: &mut [u64], i: u8)
    ensures { s.new ≡ with_ready_sent s.old i }
{
    crate::set_mark(s, layout::READY_SENT, i as u64);
}

// Marks EST b as sent in round r of vote i.
pub fn mark_est_sent(s: &mut [u64], i: u8, r: u16, b: u8)
    ensures { s.new ≡ with_est_sent s.old i r b }
{
    crate::set_mark(s, layout::EST_SENT + i as usize, 32 * b as u64 + r as u64);
}

// Marks the AUX as sent in round r of vote i.
pub fn mark_aux_sent(s: &mut [u64], i: u8, r: u8)
    ensures { s.new ≡ with_aux_sent s.old i r }
{
    crate::set_mark(s, layout::AUX_SENT + i as usize, r as u64);
}

// Marks the FINISH of vote i as sent.
pub fn mark_finish_sent(s: &mut [u64], i: u8)
    ensures { s.new ≡ with_finish_sent s.old i }
{
    crate::set_mark(s, layout::FINISH_SENT, i as u64);
}

// Sets the round of vote i.
pub fn set_round(s: &mut [u64], i: u8, r: u16)
    ensures { s.new ≡ with_round s.old i r }
{
    crate::put(s, layout::ROUNDS + i as usize, r as u64);
}

// Marks vote i as decided b.
pub fn decide(s: &mut [u64], i: u8, b: u8)
    ensures { s.new ≡ with_decision s.old i b }
{
    if b == 0 {
        crate::set_mark(s, layout::DECIDED_ZERO, i as u64);
        return;
    }
    crate::set_mark(s, layout::DECIDED_ONE, i as u64);
}

pub fn set_turn_count(s: &mut [u64], k: u64)
    ensures { s.new ≡ with_turn_count s.old k }
{
    crate::put(s, layout::TURNS, k);
}
