// Turns, and R.
ghost use Rattle.std.specs.Prelude.{◌≡◌, ◌+◌, ◌-◌};
ghost use Rattle.drill_feeder.specs.Lines.{memory, more, message_counted, goes_on, turned, turn_goes_on, sweep, sweep_if, swept, offer_to, offer, offered, ran};

use crate::{Counts, Members, calls, messages};
use settings::Refusal;
use turn::Outcome;

// The places of the store.
const CAPACITY: u16 = 1600;

// A turn is refused once 99·n + 4 of them were not idle, so no session takes so many that go on.
const TURNS: u16 = 401;

// One more than the messages that can be left to deliver.
const ROUNDS: u16 = 1601;

#[tactic(auto, unfolding(crate::specs::Lines::more))]
fn more(sent: u16) -> u16
    ensures { result ≡ more sent }
{
    if sent < CAPACITY { sent + 1 } else { sent }
}

// The counts after a turn.
#[tactic(auto, unfolding(crate::specs::Lines::message_counted))]
fn message_counted(o: Result<Outcome, Refusal>, c: Counts) -> Counts
    ensures { result ≡ message_counted o c }
{
    match o {
        Ok(Outcome::Sent(_)) => Counts {
            sent: more(c.sent),
            ..c
        },
        Ok(Outcome::Idle | Outcome::MovedOut | Outcome::InForce) | Err(_) => c,
    }
}

// Neither idle nor closed.
#[tactic(auto, unfolding(crate::specs::Lines::goes_on))]
fn goes_on(o: Result<Outcome, Refusal>) -> bool
    ensures { result ≡ goes_on o }
{
    matches!(o, Ok(Outcome::Sent(_) | Outcome::MovedOut))
}

// A turn of session p, and whether turns go on after it; its message is stored as the next one.
#[tactic(auto, unfolding(crate::specs::Lines::turned, crate::specs::Lines::turn_goes_on, crate::specs::Lines::outcome_at))]
pub fn take_turn(words: &mut [u64], store: &mut [u8], p: u8, c: &mut Counts) -> bool
    ensures left { memory words.new store.new c.new ≡ turned p (memory words.old store.old c.old) }
    ensures again { result ≡ turn_goes_on p (memory words.old store.old c.old) }
{
    let o = calls::turn_of(words, store, p, c.sent);
    *c = message_counted(o, *c);
    goes_on(o)
}

// Turns of session p until idle or closed.
fn sweep(words: &mut [u64], store: &mut [u8], p: u8, c: &mut Counts)
    ensures { memory words.new store.new c.new ≡ sweep p 401 (memory words.old store.old c.old) }
{
    for _ in 0..TURNS {
        if !take_turn(words, store, p, c) {
            return;
        }
    }
}

// The same, if p is honest.
#[tactic(auto, unfolding(crate::specs::Lines::sweep_if))]
fn sweep_if(words: &mut [u64], store: &mut [u8], honest: u64, p: u8, c: &mut Counts)
    ensures { memory words.new store.new c.new ≡ sweep_if 401 honest p (memory words.old store.old c.old) }
{
    if quorum::mark(honest, u64::from(p)) {
        sweep(words, store, p, c);
    }
}

// The turns of an R. Each loop over the concentrators is written out: of a closure that changes the lent memory no proof knows
// what it wrote.
fn sweep_all(words: &mut [u64], store: &mut [u8], g: Members, c: &mut Counts)
    ensures { memory words.new store.new c.new ≡ swept 401 g (memory words.old store.old c.old) }
{
    for k in 0..g.n {
        sweep_if(words, store, g.honest, k + 1, c);
    }
}

// Delivers message k to q, if q is honest.
#[tactic(auto, unfolding(crate::specs::Lines::offer_to))]
fn offer_to(words: &mut [u64], store: &[u8], honest: u64, k: u16, q: u8)
    ensures { words.new ≡ offer_to honest store.now k q words.old }
{
    if quorum::mark(honest, u64::from(q)) {
        messages::deliver_message(words, store, k, q);
    }
}

// Delivers message k to every honest one.
fn offer(words: &mut [u64], store: &[u8], g: Members, k: u16)
    ensures { words.new ≡ offer g store.now k words.old }
{
    for j in 0..g.n {
        offer_to(words, store, g.honest, k, j + 1);
    }
}

// Delivers the messages that no R has delivered.
fn offer_all(words: &mut [u64], store: &[u8], g: Members, c: &mut Counts)
    ensures { memory words.new store.now c.new ≡ offered g (memory words.old store.now c.old) }
{
    for k in c.offered..c.sent {
        offer(words, store, g, k + 1);
    }
    c.offered = c.sent;
}

// R: turns, then deliveries, until no message was left to deliver. Each round but the last delivers a message that no R has
// delivered, and there are at most 1,600.
pub fn run(words: &mut [u64], store: &mut [u8], g: Members, c: &mut Counts)
    ensures { memory words.new store.new c.new ≡ ran 401 g 1601 (memory words.old store.old c.old) }
{
    for _ in 0..ROUNDS {
        sweep_all(words, store, g, c);
        if c.sent <= c.offered {
            return;
        }
        offer_all(words, store, g, c);
    }
}
