// The coin box: 552 lent words that tell a coin's bit once more than ta weight has requested it.
#![tactic(auto)]

ghost use Rattle.std.specs.Prelude.{◌≡◌, length};
ghost use Rattle.records.specs.Words.{word, set_mark};
ghost use Rattle.opening.specs.Given.{weights_word};
ghost use Rattle.coin_box.specs.Box.{requests_at, box_open_answer, box_settings, box_opened, is_box, asks, requested, unsealed, request_words, request_reply, Secret};

use records::layout;
use settings::{Refusal, Settings};

pub const BOX_WORDS: usize = 552;
// The weights as one word.
const WEIGHTS: usize = 3;
// Rows of 32 words, for each vote by round: the marks of the requesters.
const REQUESTS: usize = 7;

// The refusals of an opening in their order.
fn open_answer(
    words: usize,
    n: u64,
    ta: u64,
    ts: u64,
    weights: u64,
    coins: usize,
) -> Result<(), Refusal>
    ensures { result ≡ box_open_answer words n ta ts weights coins }
{
    if words != BOX_WORDS {
        return Err(Refusal::NoState);
    }
    if !opening::settings_valid(n, ta, ts, weights) {
        return Err(Refusal::Settings);
    }
    if coins as u64 != n {
        return Err(Refusal::Settings);
    }
    Ok(())
}

fn put_settings(s: &mut [u64], n: u64, ta: u64, ts: u64, weights: u64)
    ensures { s.new ≡ box_settings s.old n ta ts weights }
{
    records::put(s, layout::N, n);
    records::put(s, layout::TA, ta);
    records::put(s, layout::TS, ts);
    records::put(s, WEIGHTS, weights);
}

// Opens a box with the weights as one word.
fn open_weighted(
    words: &mut [u64],
    n: u64,
    ta: u64,
    ts: u64,
    weights: u64,
    coins: &[u32],
) -> Result<(), Refusal>
    ensures answer { result ≡ box_open_answer (length words.old) n ta ts weights (length coins.now) }
    ensures words { words.new ≡ box_opened words.old n ta ts weights coins.now }
{
    open_answer(words.len(), n, ta, ts, weights, coins.len())?;
    let number = n as u8;
    opening::clear(words);
    put_settings(
        words,
        n,
        Settings::named_ta(number, ta, ts, weights),
        ts,
        weights,
    );
    opening::coins::put_coins(words, coins, number);
    Ok(())
}

// Opens a box in the lent words; a refusal leaves them.
pub fn open(
    words: &mut [u64],
    n: u64,
    ta: u64,
    ts: u64,
    coins: &[u32],
    weights: &[u8],
) -> Result<(), Refusal>
    ensures answer { result ≡ box_open_answer (length words.old) n ta ts (weights_word n weights.now) (length coins.now) }
    ensures words { words.new ≡ box_opened words.old n ta ts (weights_word n weights.now) coins.now }
{
    let w = opening::weights::weights_word(n, weights);
    open_weighted(words, n, ta, ts, w, coins)
}

// Whether the lent words are a box.
fn is_box(s: &[u64]) -> bool
    ensures { result ≡ is_box s.now }
{
    if s.len() != BOX_WORDS {
        return false;
    }
    Settings::check(
        records::word(s, layout::N),
        records::word(s, layout::TA),
        records::word(s, layout::TS),
        records::word(s, WEIGHTS),
    )
    .is_some()
}

// Whether the words are a box, and requester, vote and round within its layout.
fn asks(s: &[u64], requester: u64, vote: u64, round: u64) -> bool
    ensures { result ≡ asks s.now requester vote round }
{
    let n = records::word(s, layout::N);
    is_box(s)
        & session::numbered(n, requester)
        & session::numbered(n, vote)
        & session::numbered(Settings::ROUND_LIMIT as u64, round)
}

// The marks of those that have requested the coin of vote i in round r.
fn marks(s: &[u64], i: u8, r: u8) -> u64
    ensures { result ≡ word s.now (requests_at i r) }
{
    records::word(s, REQUESTS + 32 * i as usize + r as usize)
}

// What those weigh; no number above 16 weighs anything.
fn requested(s: &[u64], i: u8, r: u8) -> u64
    ensures { result ≡ requested s.now i r }
{
    let m = marks(s, i, r);
    let n = records::word(s, layout::N).min(16) as u8;
    let weights = records::word(s, WEIGHTS);
    quorum::weigh_marks(m, 0, n, weights)
}

// Whether more than ta weight has requested the coin of vote i in round r.
fn unsealed(s: &[u64], i: u8, r: u8) -> bool
    ensures { result ≡ unsealed s.now i r }
{
    let ta = records::word(s, layout::TA);
    ta < requested(s, i, r)
}

// Marks a requester of the coin of vote i in round r.
fn note(s: &mut [u64], requester: u64, i: u8, r: u8)
    ensures { s.new ≡ set_mark s.old (requests_at i r) requester }
{
    records::set_mark(s, REQUESTS + 32 * i as usize + r as usize, requester);
}

// A request for the coin of a vote in a round: its bit, none while it is sealed. The one that completes the weight is told the bit.
pub fn request(
    words: &mut [u64],
    requester: u64,
    vote: u64,
    round: u64,
) -> Result<Option<bool>, Refusal>
    ensures reply { result ≡ request_reply words.old requester vote round }
    ensures words { words.new ≡ request_words words.old requester vote round }
{
    if !asks(words, requester, vote, round) {
        return Err(Refusal::Coin);
    }
    let i = vote as u8;
    let r = round as u8;
    let bit = records::coin(words, i, r);
    note(words, requester, i, r);
    if unsealed(words, i, r) {
        return Ok(Some(bit));
    }
    Ok(None)
}

// Boxes that differ only in coins still sealed have answered alike.
pub fn secrecy()
    ensures { Secret }
{}
