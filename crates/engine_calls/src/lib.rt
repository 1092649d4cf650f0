// The six calls of the code are those of the machine `engine`, of which agreement is proved. Each function only makes one of them; its contract
// says what came of it by the machine, and, where the machine bounds what it takes, that every call of the code is within that.
#![tactic(auto)]

ghost use Rattle.std.specs.Prelude.{◌≡◌, ℕ, length, take};
ghost use Rattle.opening.specs.Arguments.{given};
ghost use Rattle.calls.specs.Engine.{OpeningGiven, Bytes, TurnLent, BitGiven, RestoreLent};
ghost use Rattle.engine_calls.specs.laws.Given.{InTypes};
ghost use Rattle.engine_calls.specs.Answers.{OpeningOf, BytesOf, OpensAs, DeliversAs, TurnsAs, RecordsAs, RestoresAs, ReportsAs};

use opening::Arguments;
use report::Figures;
use restore::{RestoreError, Restored};
use settings::Refusal;
use turn::Outcome;

// The types bound these numbers, which a proof is told of an argument, and not of a field beside lent lists.
fn in_types(session: u32, input: u64, coins: &[u32])
    ensures { InTypes session input coins.now }
{}

// Opens a session in the lent words.
pub fn open(state: &mut [u64], a: Arguments<'_>, line: &mut [u8]) -> Result<u64, Refusal>
    ensures given { OpeningOf (given a.entry) (length line.old) }
    ensures result { (o : OpeningGiven) → o.given ≡ given a.entry → o.line ≡ length line.old → OpensAs state.old o result state.new line.new }
{
    in_types(a.session, a.input, a.coins);
    journal::open(state, a, line)
}

// Delivers a message that came over the link of a concentrator.
pub fn deliver(
    state: &mut [u64],
    link: u64,
    message: &[u8],
    line: &mut [u8],
) -> Result<u64, Refusal>
    ensures given { BytesOf message.now (length line.old) }
    ensures result { (b : Bytes) → b.list ≡ message.now → b.line ≡ length line.old → DeliversAs state.old link b result state.new line.new }
{
    journal::deliver(state, link, message, line)
}

// Takes a turn. A message that is sent stands at the front of the lent bytes: the machine has the bytes of every front part.
pub fn turn(state: &mut [u64], message: &mut [u8], line: &mut [u8]) -> Result<Outcome, Refusal>
    ensures sent { (k room : ℕ) → BytesOf (take k message.new) room }
    ensures result { (l : TurnLent) → l.message ≡ message.old → l.line ≡ length line.old → TurnsAs state.old l result state.new message.new line.new }
{
    journal::turn(state, message, line)
}

// Records the bit of a vote and round.
pub fn record(
    state: &mut [u64],
    vote: u64,
    round: u64,
    bit: u64,
    line: &mut [u8],
) -> Result<u64, Refusal>
    ensures { (x : BitGiven) → x.vote ≡ vote → x.round ≡ round → x.bit ≡ bit → x.line ≡ length line.old → RecordsAs state.old x result state.new line.new }
{
    journal::record(state, vote, round, bit, line)
}

// Restores a state from its journal.
pub fn restore(
    state: &mut [u64],
    journal: &[u8],
    message: &mut [u8],
) -> Result<Restored, RestoreError>
    ensures { (l : RestoreLent) → l.journal ≡ journal.now → l.message ≡ message.old → RestoresAs state.old l result state.new }
{
    restore::restore(state, journal, message)
}

// Reports on a state, and leaves it.
pub fn report(state: &[u64], named: &mut [u64], in_force: &mut [u64]) -> Result<Figures, Refusal>
    ensures { ReportsAs state.now result named.new in_force.new }
{
    report::report(state, named, in_force)
}
