// Opening: the verdict, then the words of a new state.
#![tactic(auto)]

pub mod coins;
pub mod weights;

ghost use Rattle.std.specs.Prelude.{◌≡◌, length};
ghost use Rattle.settings.specs.Settings.{valid_settings, named_ta};
ghost use Rattle.records.specs.Words.{blank};
ghost use Rattle.opening.specs.Arguments.{given};
ghost use Rattle.opening.specs.Opening.{open_answer, opened};
ghost use Rattle.opening.specs.laws.WeightsWord.{answer_with, settings_with};

use records::layout;
use settings::{Refusal, Settings};

// What an opening is given.
#[derive(Clone, Copy)]
pub struct Arguments<'a> {
    // the version, 1 or 2 (PROTOCOL 1.21), and the settings, ta as it is given
    pub version: u64,
    pub n: u64,
    pub ta: u64,
    pub ts: u64,
    // the own number, the session number, the own input
    pub own: u64,
    pub session: u32,
    pub input: u64,
    // the coin word of each vote, the weight of each concentrator (PROTOCOL 1.9, 1.5)
    pub coins: &'a [u32],
    pub weights: &'a [u8],
    // 0 for printed coins, 1 for boxed ones (PROTOCOL 1.10)
    pub boxed: u64,
}

// Whether the numbers and the word of weights are settings of a session, ta as it is given.
pub fn settings_valid(n: u64, ta: u64, ts: u64, weights: u64) -> bool
    ensures { result ≡ valid_settings n (named_ta n ta ts weights) ts weights }
{
    Settings::check_named(n, ta, ts, weights).is_some()
}

// The refusals in their order, with the weights as one word.
fn answer_with(words: usize, a: Arguments<'_>, weights: u64) -> Result<(), Refusal>
    ensures { result ≡ answer_with words (given a.entry) weights }
{
    if words != layout::STATE_WORDS {
        return Err(Refusal::NoState);
    }
    if !settings::version_known(a.version) {
        return Err(Refusal::Settings);
    }
    if !settings_valid(a.n, a.ta, a.ts, weights) {
        return Err(Refusal::Settings);
    }
    if !session::numbered(a.n, a.own) {
        return Err(Refusal::Settings);
    }
    if !coins::coins_given(a.coins, a.n, a.boxed) {
        return Err(Refusal::Settings);
    }
    Ok(())
}

// The answer of an opening; session number and input have no part in it.
pub fn answer(words: usize, a: Arguments<'_>) -> Result<(), Refusal>
    ensures { result ≡ open_answer words (given a.entry) }
{
    answer_with(words, a, weights::weights_word(a.n, a.weights))
}

// Sets every word to 0.
pub fn clear(s: &mut [u64])
    ensures { s.new ≡ blank (length s.old) }
{
    s.fill(0);
}

// All but the coin words, with ta as it is stored and the weights as one word.
fn put_settings(s: &mut [u64], a: Arguments<'_>, ta: u64, weights: u64)
    ensures { s.new ≡ settings_with s.old (given a.entry) ta weights }
{
    records::put(s, layout::N, a.n);
    records::put(s, layout::TA, ta);
    records::put(s, layout::TS, a.ts);
    records::put(s, layout::OWN, a.own);
    records::put(s, layout::SESSION, u64::from(a.session));
    records::put(s, layout::INPUT, a.input);
    records::put(s, layout::WEIGHTS, weights);
    records::put(s, layout::BOXED, a.boxed);
    records::put(s, layout::VERSION, a.version);
}

// Opens a session in the lent words; a refusal leaves them.
pub fn open(state: &mut [u64], a: Arguments<'_>) -> Result<(), Refusal>
    ensures answer { result ≡ open_answer (length state.old) (given a.entry) }
    ensures words { state.new ≡ opened state.old (given a.entry) }
{
    let w = weights::weights_word(a.n, a.weights);
    answer_with(state.len(), a, w)?;
    let number = a.n as u8;
    clear(state);
    put_settings(state, a, Settings::named_ta(number, a.ta, a.ts, w), w);
    coins::put_coins(state, a.coins, number);
    Ok(())
}
