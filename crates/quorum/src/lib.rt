// Marks of concentrators in a word, weights in a word, and what the senders 1 to n that have their mark weigh.
#![tactic(auto)]

ghost use Rattle.std.specs.Prelude.{◌≡◌, ◌+◌, ◌/◌, ◌%◌, ◌^◌, min};
ghost use Rattle.quorum.specs.Marks.{mark, with_mark};
ghost use Rattle.quorum.specs.Total.{share};
ghost use Rattle.quorum.specs.Weights.{weight_of, weigh};
ghost use Rattle.quorum.specs.Whole.{whole_of, weights_right};

// Whether mark p of a word is set.
pub fn mark(w: u64, p: u64) -> bool
    ensures { result ≡ mark w p }
{
    if p < 1 {
        return false;
    }
    if 64 < p {
        return false;
    }
    (w >> (p - 1)) % 2 == 1
}

// The word with mark p set; a mark that is set stays.
pub fn with_mark(w: u64, p: u64) -> u64
    ensures { result ≡ with_mark w p }
{
    if p < 1 {
        return w;
    }
    if 64 < p {
        return w;
    }
    if mark(w, p) {
        return w;
    }
    w + (1 << (p - 1))
}

// The marks base + 1 to base + n of a word, as marks 1 to n.
fn part(w: u64, base: u16, n: u8) -> u64
    ensures { result ≡ w / 2 ^ base % 2 ^ n }
{
    if 63 < base {
        return 0;
    }
    if 63 < n {
        return w >> base;
    }
    (w >> base) % (1 << n)
}

// x where b, else 0.
pub fn share(b: bool, x: u64) -> u64
    ensures { result ≡ share b x }
{
    if b { x } else { 0 }
}

// 2^48 + 2^32 + 2^16 + 1: a group of 16 marks times this is that group four times over.
const FOURFOLD: u64 = 281479271743489;

// The weight of p.
pub fn weight_of(weights: u64, p: u8) -> u64
    ensures { result ≡ weight_of weights p }
{
    if p < 1 {
        return 0;
    }
    if 16 < p {
        return 0;
    }
    u64::count_ones((weights >> (p - 1)) & FOURFOLD) as u64
}

// The weight of the senders 1 to n that have the mark `base` above their number; no number above 16 weighs anything.
pub fn weigh_marks(w: u64, base: u16, n: u8, weights: u64) -> u64
    ensures { result ≡ weigh weights (λ p. mark w (base + p)) n }
{
    let marked = part(w, base, n.min(16));
    if marked == 0 {
        return 0;
    }
    u64::count_ones(marked * FOURFOLD & weights) as u64
}

// n, or 64 where it is above: a word has 64 marks.
pub fn mark_end(n: u8) -> u8
    ensures { result ≡ min n 64 }
{
    n.min(64)
}

// The weight of 1 to n: their number where each weighs 1.
pub fn whole(weights: u64, n: u8) -> u64
    ensures { result ≡ whole_of weights n }
{
    let m = n.min(16);
    let all = (1 << m) - 1;
    if weights == all {
        return m as u64;
    }
    u64::count_ones(all * FOURFOLD & weights) as u64
}

// Whether each of 1 to n weighs 1 to 4: it has one of its four marks, and no more than four can be set.
pub fn weights_right(weights: u64, n: u8) -> bool
    ensures { result ≡ weights_right weights n }
{
    if 16 < n {
        return false;
    }
    let all = (1 << n) - 1;
    if weights == all {
        return true;
    }
    let upper = (weights >> 32) | (weights >> 48);
    (weights | (weights >> 16) | upper) & all == all
}
