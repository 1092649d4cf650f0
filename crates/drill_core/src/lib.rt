// The drill: lines are judged, then acted on, from the bytes of the input to those of the output.
#![tactic(auto)]

mod acting;
mod feeding;
mod judging;
mod preparing;
mod results;

ghost use Rattle.std.specs.Prelude.{◌≡◌};
ghost use Rattle.drill_core.specs.Judging.{is_first, is_setup, after_settings, is_bad};

use drill_feeder::{Counts, Lie, Members};
use drill_lines::Reader;
pub use feeding::{feed, feed_all, start};
pub use results::finish;

// Where in its input a drill stands: before line 1, at the C and P lines, at the lines after them, after a line it cannot take.
#[derive(Clone, Copy)]
pub enum Phase {
    First,
    Setup,
    Running,
    Bad,
}

impl Phase {
    #[tactic(auto, unfolding(crate::specs::Judging::is_first))]
    fn is_first(self) -> bool
        ensures { result ≡ is_first self }
    {
        matches!(self, Phase::First)
    }

    #[tactic(auto, unfolding(crate::specs::Judging::is_setup))]
    fn is_setup(self) -> bool
        ensures { result ≡ is_setup self }
    {
        matches!(self, Phase::Setup)
    }

    #[tactic(auto, unfolding(crate::specs::Judging::after_settings))]
    fn after_settings(self) -> bool
        ensures { result ≡ after_settings self }
    {
        matches!(self, Phase::Setup | Phase::Running)
    }

    #[tactic(auto, unfolding(crate::specs::Judging::is_bad))]
    fn is_bad(self) -> bool
        ensures { result ≡ is_bad self }
    {
        matches!(self, Phase::Bad)
    }
}

// What the N, C and P lines gave; `named` marks the coin words that a C line gave. Marks beside the words, and no Options:
// the opening takes the words, 0 where none is given.
#[derive(Clone, Copy)]
pub struct Given {
    pub members: Members,
    pub ta: u64,
    pub ts: u64,
    pub session: u32,
    pub named: u64,
    pub coins: [u32; 4],
    pub inputs: [u64; 4],
}

// What a drill knows beside the lent memory.
#[derive(Clone, Copy)]
pub struct State {
    pub phase: Phase,
    pub given: Given,
    pub counts: Counts,
}

// A line of the calls.
#[derive(Clone, Copy)]
pub enum Call {
    Turn { p: u8 },
    Deliver { k: u16, q: u8 },
    Lie { q: u8, lie: Lie },
    Run,
}

// What a line that can be taken comes to.
#[derive(Clone, Copy)]
pub enum Verdict {
    Settings {
        n: u8,
        ta: u64,
        ts: u64,
        session: u32,
    },
    Coin {
        i: u8,
        word: u32,
    },
    Input {
        p: u8,
        value: u64,
    },
    Call(Call),
}

// A drill between two bytes of its input: its state, the number of the line being read, and that line as far as it is read.
#[derive(Clone, Copy)]
pub struct Drill {
    pub state: State,
    pub number: u64,
    // Whether a byte of that line is read.
    pub begun: bool,
    pub reader: Reader,
}
