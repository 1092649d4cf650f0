// What the N, C and P lines give, and the openings.
ghost use Rattle.std.specs.Prelude.{◌≡◌, ◌-◌};
ghost use Rattle.records.specs.Words.{put};
ghost use Rattle.drill_core.specs.Preparing.{none_given, settings_given, coin_given, input_given, opened_with, open_if, opened_all};

use crate::Given;
use drill_feeder::Members;

// Before line 1.
#[tactic(auto, unfolding(crate::specs::Preparing::none_given))]
pub fn none_given() -> Given
    ensures { result ≡ none_given }
{
    settings_given(0, 0, 0, 0)
}

#[tactic(auto, unfolding(crate::specs::Preparing::settings_given))]
pub fn settings_given(n: u8, ta: u64, ts: u64, session: u32) -> Given
    ensures { result ≡ settings_given n ta ts session }
{
    Given {
        members: Members { n, honest: 0 },
        ta,
        ts,
        session,
        named: 0,
        coins: [0; 4],
        inputs: [0; 4],
    }
}

// The place of number i, from 0.
fn place(i: u8) -> usize
    ensures { result ≡ i - 1 }
{
    usize::from(i.saturating_sub(1))
}

// Puts a coin word at k, and changes nothing where k is past the end. Not records::put: that one is for words of 64 bits.
#[tactic(auto, unfolding(records::specs::Words::put))]
fn put_coin(coins: &mut [u32], k: usize, word: u32)
    ensures { coins.new ≡ put coins.old k word }
{
    if k < coins.len() {
        coins[k] = word;
    }
}

#[tactic(auto, unfolding(crate::specs::Preparing::coin_given))]
pub fn coin_given(g: Given, i: u8, word: u32) -> Given
    ensures { result ≡ coin_given g i word }
{
    let mut coins = g.coins;
    put_coin(&mut coins, place(i), word);
    Given {
        named: quorum::with_mark(g.named, u64::from(i)),
        coins,
        ..g
    }
}

#[tactic(auto, unfolding(crate::specs::Preparing::input_given))]
pub fn input_given(g: Given, p: u8, value: u64) -> Given
    ensures { result ≡ input_given g p value }
{
    let mut inputs = g.inputs;
    records::put(&mut inputs, place(p), value);
    Given {
        members: Members {
            n: g.members.n,
            honest: quorum::with_mark(g.members.honest, u64::from(p)),
        },
        inputs,
        ..g
    }
}

// Opens session p with the first n coin words.
#[tactic(auto, unfolding(crate::specs::Preparing::opened_with))]
fn open_with(words: &mut [u64], g: Given, p: u8, input: u64, coins: &[u32])
    ensures { words.new ≡ opened_with g p input coins.now words.old }
{
    let n = g.members.n;
    let given = usize::from(n).min(coins.len());
    drill_feeder::open_at(
        words,
        p,
        u64::from(n),
        g.ta,
        g.ts,
        g.session,
        input,
        &coins[..given],
    );
}

// Opens session p, if p is honest.
#[tactic(auto, unfolding(crate::specs::Preparing::open_if))]
fn open_if(words: &mut [u64], g: Given, p: u8)
    ensures { words.new ≡ open_if g p words.old }
{
    if quorum::mark(g.members.honest, u64::from(p)) {
        let input = records::word(&g.inputs, place(p));
        open_with(words, g, p, input, &g.coins);
    }
}

// Opens the sessions of the honest ones.
pub fn open_all(words: &mut [u64], g: Given)
    ensures { words.new ≡ opened_all g words.old }
{
    for k in 0..g.members.n {
        open_if(words, g, k + 1);
    }
}
