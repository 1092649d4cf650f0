// The weights that an opening is given, checked one by one and put into one word.
ghost use Rattle.std.specs.Prelude.{◌≡◌};
ghost use Rattle.quorum.specs.Every.{every};
ghost use Rattle.quorum.specs.Packed.{mark_if, with_weight, packed};
ghost use Rattle.opening.specs.Given.{item, weight_given, weights_given, weights_word};

use settings::Settings;

// Weight p, and 0 where there is none.
fn weight_item(weights: &[u8], p: u8) -> u64
    ensures { result ≡ item weights.now p }
{
    if p < 1 {
        return 0;
    }
    let k = p as usize - 1;
    if k < weights.len() {
        u64::from(weights[k])
    } else {
        0
    }
}

// Whether weight p is 1 to 4.
fn weight_given(weights: &[u8], p: u8) -> bool
    ensures { result ≡ weight_given weights.now p }
{
    let x = weight_item(weights, p);
    (1 <= x) & (x <= 4)
}

// Whether the weights 1 to n are each 1 to 4.
fn all_given(weights: &[u8], n: u8) -> bool
    ensures { result ≡ every (weight_given weights.now) n }
{
    (0..n).all(|k| weight_given(weights, k + 1))
}

// Whether there are n weights, each 1 to 4.
fn weights_given(weights: &[u8], n: u64) -> bool
    ensures { result ≡ weights_given n weights.now }
{
    if Settings::MAX_CONCENTRATORS < n {
        return false;
    }
    if weights.len() as u64 != n {
        return false;
    }
    all_given(weights, n as u8)
}

// The word with mark k set, where b.
fn mark_if(b: bool, w: u64, k: u64) -> u64
    ensures { result ≡ mark_if b w k }
{
    if b { quorum::with_mark(w, k) } else { w }
}

// The word with the first x of the four marks of p.
fn with_weight(w: u64, p: u8, x: u64) -> u64
    ensures { result ≡ with_weight w p x }
{
    let first = mark_if(1 <= x, w, p as u64);
    let second = mark_if(2 <= x, first, 16 + p as u64);
    let third = mark_if(3 <= x, second, 32 + p as u64);
    mark_if(4 <= x, third, 48 + p as u64)
}

// The weights 1 to n as one word.
fn pack(weights: &[u8], n: u8) -> u64
    ensures { result ≡ packed (item weights.now) n }
{
    let mut w: u64 = 0;
    for k in 0..n {
        let p = k + 1;
        w = with_weight(w, p, weight_item(weights, p));
    }
    w
}

// The word of the weights of 1 to n, and 0 where they are not right.
pub fn weights_word(n: u64, weights: &[u8]) -> u64
    ensures { result ≡ weights_word n weights.now }
{
    if !weights_given(weights, n) {
        return 0;
    }
    pack(weights, n as u8)
}
