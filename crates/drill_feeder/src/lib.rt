// What the lines of a drill do: openings, turns, deliveries, a liar's messages and R, on memory that the caller lends.
#![tactic(auto)]

mod calls;
mod messages;
mod parts;
mod turns;

pub use calls::{closed_of, open_at, report_of};
pub use messages::{deliver_lie, deliver_message};
pub use turns::{run, take_turn};

// How many messages were sent, and how many of them an R has delivered.
#[derive(Clone, Copy)]
pub struct Counts {
    pub sent: u16,
    pub offered: u16,
}

// The concentrators 1 to n, and which of them are honest.
#[derive(Clone, Copy)]
pub struct Members {
    pub n: u8,
    pub honest: u64,
}

// A liar's one-value message.
#[derive(Clone, Copy)]
pub struct Lie {
    pub p: u8,
    pub kind: u8,
    pub instance: u8,
    pub round: u8,
    pub value: u64,
}
