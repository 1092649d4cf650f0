// The report: whether it is given, then the exit, its set, the turn count and the set in force.
#![tactic(auto)]

ghost use Rattle.std.specs.Prelude.{◌≡◌, length};
ghost use Rattle.settings.specs.Rules.{Ruled};
ghost use Rattle.commits.specs.Commits.{set_of};
ghost use Rattle.exits.specs.Exits.{exit_now};
ghost use Rattle.exits.specs.Stated.{Stated};
ghost use Rattle.report.specs.Report.{admits, figures_of, in_force_set, report_answer, report_named, report_in_force};
ghost use Rattle.records.specs.Sets.{SetRoom};
ghost use Rattle.report.specs.laws.Cases.{in_force_sender, SetWritten, Room, Written};
ghost use Rattle.report.specs.laws.Stored.{admitted_in};

use broadcasts::OutputTable;
use exits::Named;
use records::layout;
use settings::{Refusal, Settings};

// What a report tells beside the sets, which stand at the front of the lent words: the exit, 0 for none, the number of
// values named and in force, and the turns that were not idle. The exit is its number and no Option, since C is given it so.
#[derive(Clone, Copy)]
pub struct Figures {
    pub exit: u8,
    pub named: u8,
    pub in_force: u8,
    pub turns: u64,
}

// The words that a report must be lent for each set.
pub const SET_WORDS: usize = Settings::MAX_CONCENTRATORS as usize;

// Whether there is room for both sets.
fn admit_in(g: Settings, named: usize, in_force: usize) -> Result<Settings, Refusal>
    ensures { result ≡ admitted_in g named in_force }
{
    if (named < SET_WORDS) | (in_force < SET_WORDS) {
        return Err(Refusal::Short);
    }
    Ok(g)
}

// The refusals 9 and 8, in this order, or the settings.
fn admit(s: &[u64], named: usize, in_force: usize) -> Result<Settings, Refusal>
    ensures { result ≡ admits s.now named in_force }
{
    // `state_of` asks the same: here it tells the compiler for all that is read later.
    if s.len() != layout::STATE_WORDS {
        return Err(Refusal::NoState);
    }
    let Some(x) = session::state_of(s) else {
        return Err(Refusal::NoState);
    };
    admit_in(x.settings, named, in_force)
}

// The exit of a state: the outputs are worked out once.
fn exit_now(s: &[u64], g: Settings) -> Named
    requires { Ruled g }
    ensures { Stated result (exit_now g s.now) }
{
    let outputs = OutputTable::of(s, g);
    let zero = records::decided_zero_marks(s);
    let one = records::decided_one_marks(s);
    exits::exit_of(g, &outputs, zero, one)
}

// The lowest sender that holds the set in force, and 0 if none is.
fn in_force_sender(s: &[u64], g: Settings) -> u8
    ensures { result ≡ in_force_sender g s.now }
{
    if records::closed(s) {
        return commits::set_leader(s, g, g.quorum());
    }
    0
}

// Writes the set of sender p at the front of out, and answers how many values it has; nobody's set is empty.
fn write_set(s: &[u64], p: u8, out: &mut [u64]) -> u8
    requires { SetRoom s.now p out.old }
    ensures { SetWritten (set_of s.now p) out.old out.new result }
{
    if p == 0 {
        return 0;
    }
    records::copy_commit(s, p, out)
}

// Writes the set in force, as `write_set` does.
fn write_in_force(s: &[u64], g: Settings, out: &mut [u64]) -> u8
    requires { Room g s.now out.old }
    ensures { SetWritten (in_force_set g s.now) out.old out.new result }
{
    write_set(s, in_force_sender(s, g), out)
}

// Writes both sets, and answers the figures.
fn write_report(s: &[u64], g: Settings, named: &mut [u64], in_force: &mut [u64]) -> Figures
    requires { (Room g s.now named.old) × (Room g s.now in_force.old) }
    ensures { Written g s.now named.old in_force.old named.new in_force.new result }
{
    let x = exit_now(s, g);
    let values = x.values;
    let count = x.count;
    records::copy_front(&values, count, named);
    let k = write_in_force(s, g, in_force);
    Figures {
        exit: x.number(),
        named: count,
        in_force: k,
        turns: records::turn_count(s),
    }
}

// Reports on a state: the figures, with the set that the exits name and the set in force at the front of the lent words,
// or the number of the refusal.
pub fn report(state: &[u64], named: &mut [u64], in_force: &mut [u64]) -> Result<Figures, Refusal>
    ensures answer { result ≡ report_answer state.now (length named.old) (length in_force.old) }
    ensures named_words { named.new ≡ report_named state.now named.old (length in_force.old) }
    ensures in_force_words { in_force.new ≡ report_in_force state.now (length named.old) in_force.old }
{
    let g = admit(state, named.len(), in_force.len())?;
    Ok(write_report(state, g, named, in_force))
}
