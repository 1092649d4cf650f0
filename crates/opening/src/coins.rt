// The coin words that an opening is given: checked, and put into the state.
ghost use Rattle.std.specs.Prelude.{◌≡◌};
ghost use Rattle.quorum.specs.Every.{every};
ghost use Rattle.opening.specs.Opening.{with_coins};
ghost use Rattle.opening.specs.Given.{item, coin_zero, coins_given};

use records::layout;
use settings::Settings;

// Coin word i, and 0 where there is none. `weight_item` is the same of bytes: one function of both would need a bound that says which number
// an item is, and a proof that each type has it.
fn coin_word(coins: &[u32], i: u8) -> u64
    ensures { result ≡ item coins.now i }
{
    if i < 1 {
        return 0;
    }
    let k = i as usize - 1;
    if k < coins.len() {
        u64::from(coins[k])
    } else {
        0
    }
}

fn coin_zero(coins: &[u32], i: u8) -> bool
    ensures { result ≡ coin_zero coins.now i }
{
    coin_word(coins, i) == 0
}

// Whether the coin words 1 to n are all 0.
fn all_zero(coins: &[u32], n: u8) -> bool
    ensures { result ≡ every (coin_zero coins.now) n }
{
    (0..n).all(|k| coin_zero(coins, k + 1))
}

// Whether there are n coin words, printed or boxed; boxed ones are 0.
pub fn coins_given(coins: &[u32], n: u64, boxed: u64) -> bool
    ensures { result ≡ coins_given n coins.now boxed }
{
    if Settings::MAX_CONCENTRATORS < n {
        return false;
    }
    if coins.len() as u64 != n {
        return false;
    }
    if 1 < boxed {
        return false;
    }
    if boxed == 0 {
        return true;
    }
    all_zero(coins, n as u8)
}

pub fn put_coins(s: &mut [u64], coins: &[u32], n: u8)
    ensures { s.new ≡ with_coins s.old coins.now n }
{
    for k in 0..n {
        let i = k + 1;
        records::put(s, layout::COINS + i as usize, coin_word(coins, i));
    }
}
