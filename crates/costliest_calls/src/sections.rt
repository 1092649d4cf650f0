// The calls of the costliest session by sections. The place j of a call in its section counts from 0.
ghost use Rattle.std.specs.Prelude.{◌≡◌, ◌<◌, ◌≤◌, ◌↔◌, ◌*◌, ℕ, Some, IsSome, IfSome};
ghost use Rattle.costliest_calls.specs.laws.Sections.{Few, send_call, ready_call, est_call, aux_call, later_call, call_of_many, call_of_one, call_of};

use crate::{Call, INPUT};
use std::marker::Model;
use wire::Message;

// As many concentrators as a session may have.
#[derive(Clone, Copy)]
pub struct Concentrators {
    n: u64,
}

impl Model for Concentrators {
    ghost Value = { ℕ };

    ghost view = { λ c. c.n };

    ghost invariant = { λ c. Few c.n };

    ghost inverse = { λ n. record { n = n } };
}

// A SEND of each.
fn send_call(j: u64) -> Call
    requires { j < 16 }
    ensures { Some result ≡ send_call j }
{
    let value = j + 1;
    let instance = value as u8;
    Call::Delivery(instance, Message::Send { instance, value })
}

// In each instance and round the EST of 0 and of 1.
fn est_call(j: u64) -> Call
    requires { j < 1024 }
    ensures { Some result ≡ est_call j }
{
    let place = j % 64;
    let instance = (j / 64 + 1) as u8;
    let round = (place / 2 + 1) as u8;
    let value = (place % 2) as u8;
    Call::Delivery(
        1,
        Message::Est {
            instance,
            round,
            value,
        },
    )
}

// The calls of one alone: five turns, and a delivery between any two.
#[tactic(auto, unfolding(crate::specs::laws::Sections::call_of_one))]
fn call_of_one(k: u64) -> Option<Call>
    ensures { result ≡ call_of_one k }
{
    let instance = 1;
    let value = INPUT;
    let message = match k {
        2 => Message::Send { instance, value },
        4 => Message::Echo { instance, value },
        6 => Message::Ready { instance, value },
        8 => Message::Commit { count: 1 },
        _ => return (k < 10).then_some(Call::Turn),
    };
    Some(Call::Delivery(1, message))
}

impl Concentrators {
    pub fn new(n: u64) -> Option<Self>
        ensures few { IsSome result ↔ (1 ≤ n) × (n ≤ 16) }
        ensures same { IfSome result (λ c. c ≡ n) }
    {
        if n < 1 || 16 < n {
            return None;
        }
        Some(Concentrators { n })
    }

    // In each instance a READY from each.
    #[tactic(auto, using(crate::specs::laws::Places::places))]
    fn ready_call(self, j: u64) -> Call
        requires { j < self * self }
        ensures { Some result ≡ ready_call self j }
    {
        let value = j / self.n + 1;
        let instance = value as u8;
        let sender = (j % self.n + 1) as u8;
        Call::Delivery(sender, Message::Ready { instance, value })
    }

    // In each instance and round an AUX of 0 from each.
    #[tactic(auto, using(crate::specs::laws::Places::places))]
    fn aux_call(self, j: u64) -> Call
        requires { j < 32 * (self * self) }
        ensures { Some result ≡ aux_call self j }
    {
        let n = self.n;
        let all = 32 * n;
        let place = j % all;
        let instance = (j / all + 1) as u8;
        let round = (place / n + 1) as u8;
        let sender = (place % n + 1) as u8;
        Call::Delivery(
            sender,
            Message::Aux {
                instance,
                round,
                value: 0,
            },
        )
    }

    // The first COMMIT, all turns but the last, the COMMITs of the others, the last turn.
    #[tactic(auto, unfolding(crate::specs::laws::Sections::later_call, crate::specs::laws::Sections::joined))]
    fn later_call(self, j: u64) -> Option<Call>
        ensures { result ≡ later_call self j }
    {
        let n = self.n;
        let count = n as u8;
        if j < 1 {
            return Some(Call::Delivery(1, Message::Commit { count }));
        }
        let turns = 99 * n + 2;
        let turn = j - 1;
        if turn < turns {
            return Some(Call::Turn);
        }
        let other = turn - turns;
        if other < n - 1 {
            let p = other + 2;
            return Some(Call::Delivery(p as u8, Message::Commit { count }));
        }
        (other == n - 1).then_some(Call::Turn)
    }

    // The calls of two or more.
    #[tactic(auto, unfolding(crate::specs::laws::Sections::call_of_many, crate::specs::laws::Sections::joined))]
    fn call_of_many(self, j: u64) -> Option<Call>
        ensures { result ≡ call_of_many self j }
    {
        let n = self.n;
        if j < n {
            return Some(send_call(j));
        }
        let square = n * n;
        let ready = j - n;
        if ready < square {
            return Some(self.ready_call(ready));
        }
        let est = ready - square;
        if est < 64 * n {
            return Some(est_call(est));
        }
        let aux = est - 64 * n;
        if aux < 32 * square {
            return Some(self.aux_call(aux));
        }
        self.later_call(aux - 32 * square)
    }

    // Call k of n, k from 1.
    #[tactic(auto, unfolding(crate::specs::laws::Sections::call_of))]
    pub fn call_of(self, k: u64) -> Option<Call>
        ensures { result ≡ call_of self k }
    {
        if k == 0 {
            return None;
        }
        if self.n == 1 {
            return call_of_one(k);
        }
        self.call_of_many(k - 1)
    }
}
