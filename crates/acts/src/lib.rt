// What a turn can do, as a reader of the state answers it and a writer carries it out.
#![tactic(auto)]

ghost use Rattle.std.specs.Prelude.{◌≡◌};
ghost use Rattle.acts.specs.Acts.{is_due};
ghost use Rattle.acts.specs.First.{FirstOf};

// The values that the counted AUXs of a round carry.
#[derive(Clone, Copy, PartialEq, Eq)]
pub enum View {
    Only(u8),
    Both,
}

// An idle turn is an answer of its own (01, Turns act), so it is a variant and no None.
#[derive(Clone, Copy, PartialEq, Eq)]
pub enum Act {
    Idle,
    InForce,
    // The number of values; they stand beside it.
    Commit(u8),
    // The own input.
    Send(u64),
    // Instance and value.
    Echo(u8, u64),
    Ready(u8, u64),
    // Vote and value.
    Start(u8, u8),
    // Vote, round and value.
    Relay(u8, u8, u8),
    Aux(u8, u8, u8),
    // Vote, the round that is left, and what its AUXs carry.
    Move(u8, u8, View),
    // Vote and value.
    Finish(u8, u8),
}

pub fn is_due(a: Act) -> bool
    ensures { result ≡ is_due a }
{
    a != Act::Idle
}

// The first that is due of what `step` gives at 1 to n.
pub fn first_due<F: Fn(u8) -> Act>(n: u8, step: F) -> Act
    requires { F.IsAlwaysCallable step }
    ensures { FirstOf (F.post step) n result }
{
    for k in 0..n {
        let a = step(k + 1);
        if is_due(a) {
            return a;
        }
    }
    Act::Idle
}
