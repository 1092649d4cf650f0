// Votes, rule 6 of the turn order: the start, relay, AUX or move that is due, and in version 2 the FINISH before them.
#![tactic(auto)]

mod finish;

ghost use Rattle.std.specs.Prelude.{◌≡◌};
ghost use Rattle.votes.specs.Votes.{est_count, accepted, one_alone, votes_decided_one, start_act, relay_value, relay_round, relay_act, running, one_accepted_first, aux_value, aux_act};
ghost use Rattle.quorum.specs.Marks.{mark};
ghost use Rattle.votes.specs.Votes.{aux_count, view_of, move_act, round_act, vote_act, vote_due, vote_rule, coin_value, estimate, decides};
ghost use Rattle.votes.specs.laws.Given.{carriers_given, view_given, move_given, first_finish, over};

use acts::Act;
pub use finish::finish_decides;
use settings::Settings;

// The weight of the senders whose ESTs of b are held in round r of vote i.
fn est_count(s: &[u64], g: Settings, i: u8, r: u8, b: u8) -> u64
    ensures { result ≡ est_count g s.now i r b }
{
    records::est_weight(s, i, r, b, g.n, g.weights)
}

// The weight of the senders whose held AUXs carry b.
fn aux_count(s: &[u64], g: Settings, i: u8, r: u8, b: u8) -> u64
    ensures { result ≡ aux_count g s.now i r b }
{
    records::aux_weight(s, i, r, b, g.n, g.weights)
}

// Whether ESTs of weight 2·ta + 1 hold b in round r of vote i.
pub fn accepted(s: &[u64], g: Settings, i: u8, r: u8, b: u8) -> bool
    ensures { result ≡ accepted g s.now i r b }
{
    g.accept() <= est_count(s, g, i, r, b)
}

// Whether 1 is accepted in round r of vote i, and 0 is not.
pub fn one_alone(s: &[u64], g: Settings, i: u8, r: u8) -> bool
    ensures { result ≡ one_alone g s.now i r }
{
    accepted(s, g, i, r, 1) & !accepted(s, g, i, r, 0)
}

// The weight of the votes decided 1.
pub fn votes_decided_one(s: &[u64], g: Settings) -> u64
    ensures { result ≡ votes_decided_one g s.now }
{
    quorum::weigh_marks(records::decided_one_marks(s), 0, g.n, g.weights)
}

// The start of vote i, where it is due: `output` tells whether broadcast i has output, `ones` counts the votes decided 1.
pub fn start_act(s: &[u64], g: Settings, output: bool, ones: u64, i: u8) -> Act
    ensures { result ≡ start_act g s.now output ones i }
{
    if 0 < records::round(s, i) {
        return Act::Idle;
    }
    if output {
        return Act::Start(i, 1);
    }
    if g.vote_quorum() <= ones {
        return Act::Start(i, 0);
    }
    Act::Idle
}

// EST b in round r, where it was not sent and senders of weight ta + 1 hold it.
fn relay_value(s: &[u64], g: Settings, i: u8, r: u8, b: u8) -> Act
    ensures { result ≡ relay_value g s.now i r b }
{
    if records::est_sent(s, i, r, b) {
        return Act::Idle;
    }
    if g.relay() <= est_count(s, g, i, r, b) {
        return Act::Relay(i, r, b);
    }
    Act::Idle
}

// The relay of a value in round r: 0 before 1.
fn relay_round(s: &[u64], g: Settings, i: u8, r: u8) -> Act
    ensures { result ≡ relay_round g s.now i r }
{
    let a = relay_value(s, g, i, r, 0);
    if acts::is_due(a) {
        return a;
    }
    relay_value(s, g, i, r, 1)
}

// The relay of vote i, where one is due: the lowest round first. The last that relays is the current one, at most 32.
pub fn relay_act(s: &[u64], g: Settings, i: u8) -> Act
    ensures { result ≡ relay_act g s.now i }
{
    let last = records::round(s, i).min(Settings::ROUND_LIMIT);
    acts::first_due(last, |r| relay_round(s, g, i, r))
}

// Whether 1 is accepted in round r of vote i, and was so before 0. ESTs are counted only where the mark is set.
fn one_accepted_first(s: &[u64], g: Settings, i: u8, r: u8) -> bool
    ensures { result ≡ one_accepted_first g s.now i r }
{
    records::one_first(s, i, r) && accepted(s, g, i, r, 1)
}

// The AUX of round r: the value that was accepted first.
fn aux_value(s: &[u64], g: Settings, i: u8, r: u8) -> Act
    ensures { result ≡ aux_value g s.now i r }
{
    if one_accepted_first(s, g, i, r) {
        return Act::Aux(i, r, 1);
    }
    if accepted(s, g, i, r, 0) {
        return Act::Aux(i, r, 0);
    }
    if accepted(s, g, i, r, 1) {
        return Act::Aux(i, r, 1);
    }
    Act::Idle
}

// The AUX of the current round of vote i, where it is due: once a round.
pub fn aux_act(s: &[u64], g: Settings, i: u8) -> Act
    ensures { result ≡ aux_act g s.now i }
{
    let r = records::round(s, i);
    if records::aux_sent(s, i, r) {
        return Act::Idle;
    }
    aux_value(s, g, i, r)
}

// The weight of the held AUXs that carry accepted values; a0 and a1 tell which values are accepted. A sender counts once, also where a
// foreign state holds both values of it.
fn carriers(s: &[u64], g: Settings, i: u8, r: u8, a0: bool, a1: bool) -> u64
    ensures { result ≡ carriers_given g s.now i r a0 a1 }
{
    let w = records::vote_marks(s, i, r);
    let zero = quorum::share(a0, records::aux_zero_marks(w));
    let one = quorum::share(a1, records::aux_one_marks(w));
    quorum::weigh_marks(zero | one, 0, g.n, g.weights)
}

// The view where 0 and 1 are carried, or only one of them.
fn view_of(zero: bool, one: bool) -> acts::View
    ensures { result ≡ view_of zero one }
{
    if zero {
        if one {
            acts::View::Both
        } else {
            acts::View::Only(0)
        }
    } else {
        acts::View::Only(1)
    }
}

// The values that the accepted AUXs of a round carry.
fn view(s: &[u64], g: Settings, i: u8, r: u8, a0: bool, a1: bool) -> acts::View
    ensures { result ≡ view_given g s.now i r a0 a1 }
{
    let zero = a0 & (0 < aux_count(s, g, i, r, 0));
    let one = a1 & (0 < aux_count(s, g, i, r, 1));
    view_of(zero, one)
}

// The move out of round r, where held AUXs of weight W − ta carry accepted values.
fn move_value(s: &[u64], g: Settings, i: u8, r: u8, a0: bool, a1: bool) -> Act
    ensures { result ≡ move_given g s.now i r a0 a1 }
{
    if g.vote_quorum() <= carriers(s, g, i, r, a0, a1) {
        return Act::Move(i, r, view(s, g, i, r, a0, a1));
    }
    Act::Idle
}

// The move of vote i, where it is due: after the own AUX, once the coin is known.
pub fn move_act(s: &[u64], g: Settings, i: u8) -> Act
    ensures { result ≡ move_act g s.now i }
{
    let r = records::round(s, i);
    if records::aux_sent(s, i, r) & records::coin_known(s, i, r) {
        return move_value(s, g, i, r, accepted(s, g, i, r, 0), accepted(s, g, i, r, 1));
    }
    Act::Idle
}

// Whether vote i is in one of its rounds 1 to 32.
fn running(s: &[u64], i: u8) -> bool
    ensures { result ≡ running s.now i }
{
    let r = records::round(s, i);
    (1 <= r) & (r <= Settings::ROUND_LIMIT)
}

// The AUX or the move of vote i, where one is due.
pub fn round_act(s: &[u64], g: Settings, i: u8) -> Act
    ensures { result ≡ round_act g s.now i }
{
    if running(s, i) {
        let a = aux_act(s, g, i);
        if acts::is_due(a) {
            return a;
        }
        return move_act(s, g, i);
    }
    Act::Idle
}

// What is due in vote i: start; then relay; then AUX; then move.
pub fn vote_act(s: &[u64], g: Settings, output: bool, ones: u64, i: u8) -> Act
    ensures { result ≡ vote_act g s.now output ones i }
{
    let a = start_act(s, g, output, ones, i);
    if acts::is_due(a) {
        return a;
    }
    let b = relay_act(s, g, i);
    if acts::is_due(b) {
        return b;
    }
    round_act(s, g, i)
}

// The FINISH of vote i, where there are FINISHes and it is due.
fn first_finish(s: &[u64], g: Settings, finishes: bool, i: u8) -> Act
    ensures { result ≡ first_finish g s.now finishes i }
{
    if finishes {
        return finish::finish_act(s, g, i);
    }
    Act::Idle
}

// Whether vote i does nothing more: there are FINISHes, and it has finished.
fn over(s: &[u64], finishes: bool, i: u8) -> bool
    ensures { result ≡ over s.now finishes i }
{
    finishes && finish::finished(s, i)
}

// What is due in vote i, with FINISHes or without. One call of `vote_act` for both: with two it is no longer compiled into the loop
// below (docs/PERFORMANCE.md).
fn vote_due(s: &[u64], g: Settings, finishes: bool, output: bool, ones: u64, i: u8) -> Act
    ensures { result ≡ vote_due g s.now finishes output ones i }
{
    let a = first_finish(s, g, finishes, i);
    if acts::is_due(a) {
        return a;
    }
    if over(s, finishes, i) {
        return Act::Idle;
    }
    vote_act(s, g, output, ones, i)
}

// Rule 6, lower votes first: `outputs` has mark i where broadcast i has output.
pub fn vote_rule(s: &[u64], g: Settings, outputs: u64) -> Act
    ensures { result ≡ vote_rule g s.now (mark outputs) }
{
    let finishes = settings::finishing(records::version(s));
    let ones = votes_decided_one(s, g);
    acts::first_due(g.n, |i| {
        vote_due(s, g, finishes, quorum::mark(outputs, i as u64), ones, i)
    })
}

// The coin as a value: 1 where its bit is set.
pub fn coin_value(coin: bool) -> u8
    ensures { result ≡ coin_value coin }
{
    u8::from(coin)
}

// The estimate after a move.
pub fn estimate(coin: bool, v: acts::View) -> u8
    ensures { result ≡ estimate coin v }
{
    match v {
        acts::View::Only(b) => b,
        acts::View::Both => coin_value(coin),
    }
}

// Whether a move decides its vote, if no decision stands.
pub fn decides(coin: bool, v: acts::View) -> bool
    ensures { result ≡ decides coin v }
{
    match v {
        acts::View::Only(b) => b == coin_value(coin),
        acts::View::Both => false,
    }
}
