// COMMITs: the sets that senders hold, and the lowest sender whose set enough of them hold.
#![tactic(auto)]

ghost use Rattle.std.specs.Prelude.{◌≡◌, ◌&&◌, eqb};
ghost use Rattle.settings.specs.laws.Counting.{counting};
ghost use Rattle.records.specs.Records.{commit_value};
ghost use Rattle.commits.specs.Commits.{commit_held, same_set, set_holders, set_leads, set_leader};
ghost use Rattle.commits.specs.laws.Commits.{commits_held};

use records::layout;
use settings::Settings;

// Whether a COMMIT of sender p is held.
pub fn commit_held(s: &[u64], p: u8) -> bool
    ensures { result ≡ commit_held s.now p }
{
    0 < records::commit_count(s, p)
}

// Whether value k is the same in the COMMITs of senders p and q.
fn same_value(s: &[u64], p: u8, q: u8, k: u8) -> bool
    ensures { result ≡ eqb (commit_value s.now p k) (commit_value s.now q k) }
{
    records::commit_value(s, p, k) == records::commit_value(s, q, k)
}

// Whether the COMMITs of senders p and q hold the same set.
fn same_set(s: &[u64], p: u8, q: u8) -> bool
    ensures { result ≡ same_set s.now p q }
{
    let n = records::commit_count(s, p);
    if n != records::commit_count(s, q) {
        return false;
    }
    (0..n).all(|k| same_value(s, p, q, k + 1))
}

// Whether sender q holds the set of sender p.
fn holds_set(s: &[u64], p: u8, q: u8) -> bool
    ensures { result ≡ (commit_held s.now q && same_set s.now p q) }
{
    commit_held(s, q) && same_set(s, p, q)
}

// The weight of the senders that hold the set of sender p: their marks are collected, then weighed at once. n and the weights come as
// numbers, which stay in registers.
fn set_holders(s: &[u64], weights: u64, n: u8, p: u8) -> u64
    ensures { result ≡ set_holders (counting n weights) s.now p }
{
    let mut m: u64 = 0;
    for k in (0..quorum::mark_end(n)).rev() {
        m = 2 * m + u64::from(holds_set(s, p, k + 1));
    }
    quorum::weigh_marks(m, 0, n, weights)
}

// Whether sender p holds a set that senders of weight k hold.
fn set_leads(s: &[u64], weights: u64, n: u8, k: u64, p: u8) -> bool
    ensures { result ≡ set_leads (counting n weights) s.now k p }
{
    commit_held(s, p) && k <= set_holders(s, weights, n, p)
}

// The weight of the senders of whom a COMMIT is held: those whose count is not 0.
fn commits_held(s: &[u64], weights: u64, n: u8) -> u64
    ensures { result ≡ commits_held (counting n weights) s.now }
{
    let none = records::equal_marks(s, layout::COMMIT_COUNTS as u32 + 1, n, 0);
    quorum::weigh_marks(!none, 0, n, weights)
}

// The lowest sender with a set that senders of weight k hold, and 0 if there is none. The senders are looked at one by one.
fn leader_of(s: &[u64], weights: u64, n: u8, k: u64) -> u8
    ensures { result ≡ set_leader (counting n weights) s.now k }
{
    for q in 0..n {
        let p = q + 1;
        if set_leads(s, weights, n, k, p) {
            return p;
        }
    }
    0
}

// The same; where COMMITs of less weight are held, no set is looked at.
fn leader_if_held(s: &[u64], weights: u64, n: u8, k: u64) -> u8
    ensures { result ≡ set_leader (counting n weights) s.now k }
{
    if commits_held(s, weights, n) < k {
        return 0;
    }
    leader_of(s, weights, n, k)
}

// The lowest sender with a set that senders of weight k hold, and 0 if there is none.
pub fn set_leader(s: &[u64], g: Settings, k: u64) -> u8
    ensures { result ≡ set_leader g s.now k }
{
    leader_if_held(s, g.weights, g.n, k)
}
