// What is due, by the turn order.
ghost use Rattle.std.specs.Prelude.{◌≡◌};
ghost use Rattle.settings.specs.Rules.{Ruled};
ghost use Rattle.settings.specs.Settings.{repeat};
ghost use Rattle.broadcasts.specs.Outputs.{Outputs};
ghost use Rattle.exits.specs.Stated.{Stated};
ghost use Rattle.commits.specs.Commits.{leading_set};
ghost use Rattle.turn.specs.Due.{in_force_rule, commit_due, commit_of, commit_rule, send_rule, due};
ghost use Rattle.exits.specs.Exits.{exit_now};
ghost use Rattle.turn.specs.laws.Choosing.{Readable, Chosen, last_rules, later_rules};

use acts::Act;
use broadcasts::OutputTable;
use exits::Named;
use settings::Settings;

// Rule 1: the COMMITs of senders of weight W − ts hold the same set.
fn in_force_rule(s: &[u64], g: Settings) -> Act
    ensures { result ≡ in_force_rule g s.now }
{
    if commits::set_leader(s, g, g.quorum()) == 0 {
        return Act::Idle;
    }
    Act::InForce
}

// The COMMIT of a set that senders of weight ts + 1 hold, with the set beside it.
fn repeated_commit(s: &[u64], g: Settings, set: &mut [u64; 16]) -> Act
    requires { Readable g s.now set.old }
    ensures { Chosen (commit_of (leading_set g s.now (repeat g))) (leading_set g s.now (repeat g)) result set.new }
{
    let p = commits::set_leader(s, g, g.repeat());
    if p == 0 {
        return Act::Idle;
    }
    let count = records::copy_commit(s, p, set);
    Act::Commit(count)
}

// Rule 2: the COMMIT of the set that the exits name, else of one that senders of weight ts + 1 hold, with the set beside it.
fn commit_rule(s: &[u64], g: Settings, named: Named, set: &mut [u64; 16]) -> Act
    requires { (Readable g s.now set.old) × (Stated named (exit_now g s.now)) }
    ensures { Chosen (commit_rule g s.now) (commit_due g s.now) result set.new }
{
    if records::commit_sent(s) {
        return Act::Idle;
    }
    let count = named.count;
    if count == 0 {
        return repeated_commit(s, g, set);
    }
    let values = named.values;
    *set = values;
    Act::Commit(count)
}

// Rule 3: the SEND of the own input.
fn send_rule(s: &[u64]) -> Act
    ensures { result ≡ send_rule s.now }
{
    if records::send_sent(s) {
        return Act::Idle;
    }
    Act::Send(records::own_input(s))
}

// Rules 5 and 6: `outputs` has mark i where broadcast i has output, `first` tells whether Exit 1 holds.
fn last_rules(s: &[u64], g: Settings, outputs: u64, first: bool) -> Act
    ensures { result ≡ last_rules g s.now outputs first }
{
    let a = broadcasts::ready_rule(s, g);
    if acts::is_due(a) {
        return a;
    }
    if first {
        return Act::Idle;
    }
    votes::vote_rule(s, g, outputs)
}

// Rules 3 to 6.
fn later_rules(s: &[u64], g: Settings, outputs: u64, first: bool) -> Act
    ensures { result ≡ later_rules g s.now outputs first }
{
    let a = send_rule(s);
    if acts::is_due(a) {
        return a;
    }
    let b = broadcasts::echo_rule(s, g);
    if acts::is_due(b) {
        return b;
    }
    last_rules(s, g, outputs, first)
}

// The exit of a state, from the outputs of its broadcasts.
fn exit_now(s: &[u64], g: Settings, outputs: &OutputTable) -> Named
    requires { (Ruled g) × (Outputs g s.now g.n outputs.now.marks outputs.now.values) }
    ensures { Stated result (exit_now g s.now) }
{
    let zero = records::decided_zero_marks(s);
    let one = records::decided_one_marks(s);
    exits::exit_of(g, outputs, zero, one)
}

// The first thing due; the set of a COMMIT stands at the front of `set`.
pub fn due(s: &[u64], g: Settings, set: &mut [u64; 16]) -> Act
    requires { Readable g s.now set.old }
    ensures { Chosen (due g s.now) (commit_due g s.now) result set.new }
{
    let a = in_force_rule(s, g);
    if acts::is_due(a) {
        return a;
    }
    let outputs = OutputTable::of(s, g);
    let named = exit_now(s, g, &outputs);
    let b = commit_rule(s, g, named, set);
    if acts::is_due(b) {
        return b;
    }
    later_rules(s, g, outputs.marks, named.is_first())
}
