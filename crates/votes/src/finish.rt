// FINISHes, by which votes wind up early in sessions of version 2.
ghost use Rattle.std.specs.Prelude.{◌≡◌};
ghost use Rattle.votes.specs.Finishing.{finish_count, repeated, finish_repeated, finish_value, finish_act, finished, finish_decides};

use acts::Act;
use settings::Settings;

// The weight of the senders whose FINISHes of b are held in vote i.
fn finish_count(s: &[u64], g: Settings, i: u8, b: u8) -> u64
    ensures { result ≡ finish_count g s.now i b }
{
    records::finish_weight(s, i, b, g.n, g.weights)
}

// Whether FINISHes of weight ta + 1 carry b.
fn repeated(s: &[u64], g: Settings, i: u8, b: u8) -> bool
    ensures { result ≡ repeated g s.now i b }
{
    g.relay() <= finish_count(s, g, i, b)
}

// The FINISH of a value that is repeated: 0 before 1.
fn finish_repeated(s: &[u64], g: Settings, i: u8) -> Act
    ensures { result ≡ finish_repeated g s.now i }
{
    if repeated(s, g, i, 0) {
        return Act::Finish(i, 0);
    }
    if repeated(s, g, i, 1) {
        return Act::Finish(i, 1);
    }
    Act::Idle
}

// The FINISH of the decision, where one stands, else of a value that is repeated.
fn finish_value(s: &[u64], g: Settings, i: u8) -> Act
    ensures { result ≡ finish_value g s.now i }
{
    if records::decided_one(s, i) {
        return Act::Finish(i, 1);
    }
    if records::decided_zero(s, i) {
        return Act::Finish(i, 0);
    }
    finish_repeated(s, g, i)
}

// The FINISH of vote i, where it is due: once a vote.
pub fn finish_act(s: &[u64], g: Settings, i: u8) -> Act
    ensures { result ≡ finish_act g s.now i }
{
    if records::finish_sent(s, i) {
        return Act::Idle;
    }
    finish_value(s, g, i)
}

// Whether vote i has sent its FINISH and has a decision: it does nothing more.
pub fn finished(s: &[u64], i: u8) -> bool
    ensures { result ≡ finished s.now i }
{
    records::finish_sent(s, i) & records::decided(s, i)
}

// Whether FINISHes of b decide vote i: no decision stands, and they have weight 2·ta + 1.
pub fn finish_decides(s: &[u64], g: Settings, i: u8, b: u8) -> bool
    ensures { result ≡ finish_decides g s.now i b }
{
    !records::decided(s, i) & (g.accept() <= finish_count(s, g, i, b))
}
