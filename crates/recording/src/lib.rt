// Recording a bit of the coin box in the state of a boxed session.
#![tactic(auto)]

ghost use Rattle.std.specs.Prelude.{◌≡◌};
ghost use Rattle.recording.specs.Recording.{bit_mark, other_mark, in_layout, unopposed, recordable, record_answer, with_bit, recorded_words};
ghost use Rattle.recording.specs.laws.Cases.{running_answer};

use records::layout;
use settings::{Refusal, Settings};

// Whether the session is boxed, and vote, round and bit are within the layout.
fn in_layout(s: &[u64], n: u8, i: u64, r: u64, b: u64) -> bool
    ensures { result ≡ in_layout s.now n i r b }
{
    !records::printed(s)
        & (session::numbered(n as u64, i)
            & (session::numbered(Settings::ROUND_LIMIT as u64, r) & (b <= 1)))
}

// The mark of a bit in a vote's coin word.
fn bit_mark(r: u8, b: u8) -> u64
    ensures { result ≡ bit_mark r b }
{
    if b == 1 {
        r as u64
    } else {
        layout::ZERO_MARKS + r as u64
    }
}

// The mark of the other bit.
fn other_mark(r: u8, b: u8) -> u64
    ensures { result ≡ other_mark r b }
{
    bit_mark(r, u8::from(b != 1))
}

// Whether the other bit is not recorded.
fn unopposed(s: &[u64], i: u8, r: u8, b: u8) -> bool
    ensures { result ≡ unopposed s.now i r b }
{
    !records::marked(s, layout::COINS + i as usize, other_mark(r, b))
}

// Whether the bit may be recorded.
fn recordable(s: &[u64], n: u8, i: u64, r: u64, b: u64) -> bool
    ensures { result ≡ recordable s.now n i r b }
{
    if !in_layout(s, n, i, r, b) {
        return false;
    }
    unopposed(s, i as u8, r as u8, b as u8)
}

// The answer where the words are a state of n concentrators.
fn running_answer(s: &[u64], n: u8, i: u64, r: u64, b: u64) -> Result<(), Refusal>
    ensures { result ≡ running_answer s.now n i r b }
{
    if records::closed(s) {
        return Err(Refusal::Closed);
    }
    if !recordable(s, n, i, r, b) {
        return Err(Refusal::Coin);
    }
    Ok(())
}

// The refusals in their order.
pub fn answer(s: &[u64], vote: u64, round: u64, bit: u64) -> Result<(), Refusal>
    ensures { result ≡ record_answer s.now vote round bit }
{
    let Some(x) = session::state_of(s) else {
        return Err(Refusal::NoState);
    };
    running_answer(s, x.settings.n, vote, round, bit)
}

fn put_bit(s: &mut [u64], i: u8, r: u8, b: u8)
    ensures { s.new ≡ with_bit s.old i r b }
{
    records::set_mark(s, layout::COINS + i as usize, bit_mark(r, b));
}

// Records the bit of a vote and round; a refusal leaves the words.
pub fn record(state: &mut [u64], vote: u64, round: u64, bit: u64) -> Result<(), Refusal>
    ensures answer { result ≡ record_answer state.old vote round bit }
    ensures words { state.new ≡ recorded_words state.old vote round bit }
{
    answer(state, vote, round, bit)?;
    put_bit(state, vote as u8, round as u8, bit as u8);
    Ok(())
}
