// The state: 2,048 lent words, the place of each record among them, and total readers and writers.
#![tactic(auto)]

pub mod layout;
pub mod writing;

ghost use Rattle.std.specs.Prelude.{◌||◌, ◌≡◌, ◌/◌, ◌^◌, ◌≤◌, length};
ghost use Rattle.quorum.specs.Marking.{MarksOf};
ghost use Rattle.quorum.specs.Weights.{weigh};
ghost use Rattle.records.specs.Words.{copied};
ghost use Rattle.records.specs.Records.{own_input, turn_count, closed, send_sent, commit_sent, echo_sent, ready_sent, finish_sent, version, coin, printed, coin_known, round, est_sent, aux_sent, decided_zero, decided_one, decided};
ghost use Rattle.records.specs.Records.{send_held, send_value, echo_held, ready_held, est_held, aux_held, one_first, finish_held, commit_count, commit_value};
ghost use Rattle.records.specs.Layout.{aux_group};
ghost use Rattle.records.specs.Words.{word, put, marked, equal_at, set_mark};
ghost use Rattle.records.specs.laws.Words.{Reached};
ghost use Rattle.records.specs.MarkWords.{decided_zero_marks, decided_one_marks, vote_marks, finish_marks};
ghost use Rattle.records.specs.Sets.{SetRoom, SetCopied};

use settings::Settings;

// The word at k, and 0 past the end.
pub fn word(s: &[u64], k: usize) -> u64
    ensures { result ≡ word s.now k }
{
    s.get(k).copied().unwrap_or(0)
}

// Puts v at k, and changes nothing where k is past the end.
pub fn put(s: &mut [u64], k: usize, v: u64)
    ensures { s.new ≡ put s.old k v }
{
    if k < s.len() {
        s[k] = v;
    }
}

// Mark p of word k.
pub fn marked(s: &[u64], k: usize, p: u64) -> bool
    ensures { result ≡ marked s.now k p }
{
    quorum::mark(word(s, k), p)
}

// The marks p of 1 to n for which the word p − 1 above base is v, where all these words are there.
fn equal_within(s: &[u64], base: u32, n: u8, v: u64) -> u64
    requires { Reached s.now base n }
    ensures { MarksOf (equal_at s.now base v) n result }
{
    let first = base as usize;
    let mut m: u64 = 0;
    for p in (0..n as usize).rev() {
        m = 2 * m + u64::from(s[first + p] == v);
    }
    m
}

// The same, where some may be past the end.
fn equal_each(s: &[u64], base: u32, n: u8, v: u64) -> u64
    ensures { MarksOf (equal_at s.now base v) n result }
{
    let mut m: u64 = 0;
    for p in (0..quorum::mark_end(n)).rev() {
        m = 2 * m + u64::from(word(s, base as usize + p as usize) == v);
    }
    m
}

// The marks p of 1 to n for which the word p − 1 above base is v. Whether the words are there is asked once, not for each.
pub fn equal_marks(s: &[u64], base: u32, n: u8, v: u64) -> u64
    ensures { MarksOf (equal_at s.now base v) n result }
{
    if 64 < n {
        return equal_each(s, base, n, v);
    }
    if s.len() < base as usize + n as usize {
        return equal_each(s, base, n, v);
    }
    equal_within(s, base, n, v)
}

// Sets mark p of word k.
pub fn set_mark(s: &mut [u64], k: usize, p: u64)
    ensures { s.new ≡ set_mark s.old k p }
{
    let w = quorum::with_mark(word(s, k), p);
    put(s, k, w);
}

pub fn own_input(s: &[u64]) -> u64
    ensures { result ≡ own_input s.now }
{
    word(s, layout::INPUT)
}

// The turns since the opening that were not idle.
pub fn turn_count(s: &[u64]) -> u64
    ensures { result ≡ turn_count s.now }
{
    word(s, layout::TURNS)
}

pub fn closed(s: &[u64]) -> bool
    ensures { result ≡ closed s.now }
{
    marked(s, layout::FLAGS, layout::CLOSED_MARK)
}

pub fn send_sent(s: &[u64]) -> bool
    ensures { result ≡ send_sent s.now }
{
    marked(s, layout::FLAGS, layout::SEND_SENT_MARK)
}

pub fn commit_sent(s: &[u64]) -> bool
    ensures { result ≡ commit_sent s.now }
{
    marked(s, layout::FLAGS, layout::COMMIT_SENT_MARK)
}

pub fn echo_sent(s: &[u64], i: u8) -> bool
    ensures { result ≡ echo_sent s.now i }
{
    marked(s, layout::ECHO_SENT, i as u64)
}

pub fn ready_sent(s: &[u64], i: u8) -> bool
    ensures { result ≡ ready_sent s.now i }
{
    marked(s, layout::READY_SENT, i as u64)
}

// Whether the FINISH of vote i was sent.
pub fn finish_sent(s: &[u64], i: u8) -> bool
    ensures { result ≡ finish_sent s.now i }
{
    marked(s, layout::FINISH_SENT, i as u64)
}

pub fn send_held(s: &[u64], i: u8) -> bool
    ensures { result ≡ send_held s.now i }
{
    marked(s, layout::SEND_MARKS, i as u64)
}

pub fn send_value(s: &[u64], i: u8) -> u64
    ensures { result ≡ send_value s.now i }
{
    word(s, layout::SEND_VALUES + i as usize)
}

// Whether the ECHO of sender p is held in instance i.
pub fn echo_held(s: &[u64], i: u8, p: u8) -> bool
    ensures { result ≡ echo_held s.now i p }
{
    marked(s, layout::ECHO_MARKS + i as usize, p as u64)
}

// Whether the READY of sender p is held in instance i.
pub fn ready_held(s: &[u64], i: u8, p: u8) -> bool
    ensures { result ≡ ready_held s.now i p }
{
    marked(s, layout::READY_MARKS + i as usize, p as u64)
}

// The coin of vote i in round r.
pub fn coin(s: &[u64], i: u8, r: u8) -> bool
    ensures { result ≡ coin s.now i r }
{
    marked(s, layout::COINS + i as usize, r as u64)
}

// The version of the session.
pub fn version(s: &[u64]) -> u64
    ensures { result ≡ version s.now }
{
    word(s, layout::VERSION)
}

// Whether the coins of the session are printed.
pub fn printed(s: &[u64]) -> bool
    ensures { result ≡ printed s.now }
{
    word(s, layout::BOXED) == 0
}

// Whether the coin of vote i in round r stands in the state: printed, or recorded as 1 or as 0.
pub fn coin_known(s: &[u64], i: u8, r: u8) -> bool
    ensures { result ≡ coin_known s.now i r }
{
    if printed(s) {
        return true;
    }
    coin(s, i, r) | marked(s, layout::COINS + i as usize, layout::ZERO_MARKS + r as u64)
}

// The round of vote i: 0 before its start, 33 after round 32.
pub fn round(s: &[u64], i: u8) -> u8
    ensures { result ≡ round s.now i }
{
    let r = word(s, layout::ROUNDS + i as usize);
    r.min(Settings::MOVED_OUT_ROUND as u64) as u8
}

// Whether EST b was sent in round r of vote i.
pub fn est_sent(s: &[u64], i: u8, r: u8, b: u8) -> bool
    ensures { result ≡ est_sent s.now i r b }
{
    marked(s, layout::EST_SENT + i as usize, 32 * b as u64 + r as u64)
}

// Whether an AUX was sent in round r of vote i.
pub fn aux_sent(s: &[u64], i: u8, r: u8) -> bool
    ensures { result ≡ aux_sent s.now i r }
{
    marked(s, layout::AUX_SENT + i as usize, r as u64)
}

// The votes decided 0: mark i for vote i.
pub fn decided_zero_marks(s: &[u64]) -> u64
    ensures { result ≡ decided_zero_marks s.now }
{
    word(s, layout::DECIDED_ZERO)
}

// The votes decided 1.
pub fn decided_one_marks(s: &[u64]) -> u64
    ensures { result ≡ decided_one_marks s.now }
{
    word(s, layout::DECIDED_ONE)
}

// Whether vote i is decided 0.
pub fn decided_zero(s: &[u64], i: u8) -> bool
    ensures { result ≡ decided_zero s.now i }
{
    marked(s, layout::DECIDED_ZERO, i as u64)
}

// Whether vote i is decided 1.
pub fn decided_one(s: &[u64], i: u8) -> bool
    ensures { result ≡ decided_one s.now i }
{
    marked(s, layout::DECIDED_ONE, i as u64)
}

// Whether a decision stands in vote i.
pub fn decided(s: &[u64], i: u8) -> bool
    ensures { result ≡ decided s.now i }
{
    marked(s, layout::DECIDED_ZERO, i as u64) | marked(s, layout::DECIDED_ONE, i as u64)
}

// The ESTs and AUXs held in round r of vote i, four groups of 16 marks.
pub fn vote_marks(s: &[u64], i: u8, r: u8) -> u64
    ensures { result ≡ vote_marks s.now i r }
{
    word(s, layout::VOTES + 32 * i as usize + r as usize)
}

// Whether EST b of sender p is held in round r of vote i.
pub fn est_held(s: &[u64], i: u8, r: u8, b: u8, p: u8) -> bool
    ensures { result ≡ est_held s.now i r b p }
{
    quorum::mark(vote_marks(s, i, r), layout::GROUP * b as u64 + p as u64)
}

// Whether an AUX of sender p is held in round r of vote i.
pub fn aux_held(s: &[u64], i: u8, r: u8, p: u8) -> bool
    ensures { result ≡ (aux_held s.now i r 0 p || aux_held s.now i r 1 p) }
{
    let w = vote_marks(s, i, r);
    quorum::mark(w, layout::AUX_ZERO + p as u64) | quorum::mark(w, layout::AUX_ONE + p as u64)
}

// Whether in round r of vote i 1 was accepted before 0.
pub fn one_first(s: &[u64], i: u8, r: u8) -> bool
    ensures { result ≡ one_first s.now i r }
{
    marked(s, layout::ONE_FIRST + i as usize, r as u64)
}

// The FINISHes held in vote i, two groups of 16 marks.
pub fn finish_marks(s: &[u64], i: u8) -> u64
    ensures { result ≡ finish_marks s.now i }
{
    word(s, layout::FINISH_MARKS + i as usize)
}

// Whether a FINISH of sender p is held in vote i.
pub fn finish_held(s: &[u64], i: u8, p: u8) -> bool
    ensures { result ≡ (finish_held s.now i 0 p || finish_held s.now i 1 p) }
{
    let w = finish_marks(s, i);
    quorum::mark(w, p as u64) | quorum::mark(w, layout::GROUP + p as u64)
}

// The weight of the senders 1 to n whose FINISHes of b are held in vote i.
pub fn finish_weight(s: &[u64], i: u8, b: u8, n: u8, weights: u64) -> u64
    ensures { result ≡ weigh weights (finish_held s.now i b) n }
{
    quorum::weigh_marks(
        finish_marks(s, i),
        layout::GROUP as u16 * b as u16,
        n,
        weights,
    )
}

// The weight of the senders 1 to n whose ESTs of b are held in round r of vote i.
pub fn est_weight(s: &[u64], i: u8, r: u8, b: u8, n: u8, weights: u64) -> u64
    ensures { result ≡ weigh weights (est_held s.now i r b) n }
{
    quorum::weigh_marks(
        vote_marks(s, i, r),
        layout::GROUP as u16 * b as u16,
        n,
        weights,
    )
}

// The weight of the senders 1 to n whose held AUXs carry b.
pub fn aux_weight(s: &[u64], i: u8, r: u8, b: u8, n: u8, weights: u64) -> u64
    ensures { result ≡ weigh weights (aux_held s.now i r b) n }
{
    quorum::weigh_marks(
        vote_marks(s, i, r),
        layout::AUX_ZERO as u16 + layout::GROUP as u16 * b as u16,
        n,
        weights,
    )
}

// The AUXs of 0 in a round's word, mark p for sender p; marks above 16 mean nothing.
pub fn aux_zero_marks(w: u64) -> u64
    ensures { result ≡ w / 2 ^ aux_group 0 }
{
    w >> layout::AUX_ZERO
}

// The AUXs of 1, likewise.
pub fn aux_one_marks(w: u64) -> u64
    ensures { result ≡ w / 2 ^ aux_group 1 }
{
    w >> layout::AUX_ONE
}

// How many values the COMMIT of sender p has, and 0 where none is held.
pub fn commit_count(s: &[u64], p: u8) -> u8
    ensures { result ≡ commit_count s.now p }
{
    let k = word(s, layout::COMMIT_COUNTS + p as usize);
    k.min(Settings::MAX_CONCENTRATORS) as u8
}

// Value k of the COMMIT of sender p.
pub fn commit_value(s: &[u64], p: u8, k: u8) -> u64
    ensures { result ≡ commit_value s.now p k }
{
    word(s, layout::COMMIT_VALUES + 16 * p as usize + k as usize)
}

// The first count elements of from, at the front of out.
pub fn copy_front(from: &[u64], count: u8, out: &mut [u64])
    requires { (count ≤ length from.now) × (count ≤ length out.old) }
    ensures { out.new ≡ copied from.now out.old count }
{
    // One by one: with `copy_from_slice` a report would need memmove of whoever links it.
    for k in 0..count as usize {
        out[k] = from[k];
    }
}

// Writes the set in the COMMIT of sender p at the front of out, and answers how many values it has.
pub fn copy_commit(s: &[u64], p: u8, out: &mut [u64]) -> u8
    requires { SetRoom s.now p out.old }
    ensures { SetCopied s.now p out.old out.new result }
{
    let count = commit_count(s, p);
    let from = layout::COMMIT_VALUES + 16 * p as usize + 1;
    copy_front(&s[from..], count, out);
    count
}
