// Broadcasts: the ECHO and the READY that are due, and the output.
#![tactic(auto)]

ghost use Rattle.std.specs.Prelude.{◌≡◌, ◌+◌, ◌≤◌, leb};
ghost use Rattle.settings.specs.laws.Counting.{counting};
ghost use Rattle.records.specs.Records.{ready_held, ready_value, echo_held, echo_value};
ghost use Rattle.records.specs.Words.{word, marked};
ghost use Rattle.broadcasts.specs.laws.Leading.{held_count};
ghost use Rattle.broadcasts.specs.Leading.{holders, leads, leading};
ghost use Rattle.broadcasts.specs.Broadcasts.{output, echo_act, ready_due, ready_act, echo_rule, ready_rule};
ghost use Rattle.broadcasts.specs.Outputs.{output_at, outputs_in, Outputs};
ghost use Rattle.broadcasts.specs.laws.Outputs.{Stored};

use acts::Act;
use records::layout;
use settings::Settings;

// Whether senders of weight q hold v: the marks of those that do are collected, then weighed at once. Those held have the weight q
// together, so nothing is weighed where all of them hold v. n and the weights come as numbers, which stay in registers.
fn enough_hold(s: &[u64], marks: u16, values: u16, v: u64, n: u8, weights: u64, q: u64) -> bool
    requires { q ≤ held_count (counting n weights) s.now marks }
    ensures { result ≡ leb q (holders (counting n weights) (λ p. marked s.now marks p) (λ p. word s.now (values + p)) v) }
{
    let equal = records::equal_marks(s, values as u32 + 1, n, v);
    let held = records::word(s, marks as usize);
    if equal & held == held {
        return true;
    }
    q <= quorum::weigh_marks(equal & held, 0, n, weights)
}

// Whether sender p holds a value that senders of weight q hold.
fn leads(s: &[u64], marks: u16, values: u16, n: u8, weights: u64, q: u64, p: u8) -> bool
    requires { q ≤ held_count (counting n weights) s.now marks }
    ensures { result ≡ leads (counting n weights) (λ k. marked s.now marks k) (λ k. word s.now (values + k)) q p }
{
    if records::marked(s, marks as usize, p as u64) {
        let v = records::word(s, values as usize + p as usize);
        enough_hold(s, marks, values, v, n, weights, q)
    } else {
        false
    }
}

// A value that senders of weight q hold: of several, the lowest sender's. The senders are looked at one by one.
fn leading_of(s: &[u64], marks: u16, values: u16, n: u8, weights: u64, q: u64) -> Option<u64>
    requires { q ≤ held_count (counting n weights) s.now marks }
    ensures { result ≡ leading (counting n weights) (λ k. marked s.now marks k) (λ k. word s.now (values + k)) q }
{
    for k in 0..n {
        let p = k + 1;
        if leads(s, marks, values, n, weights, q, p) {
            return Some(records::word(s, values as usize + p as usize));
        }
    }
    None
}

// The weight of the senders 1 to n that have their mark in word marks.
fn held_count(s: &[u64], marks: u16, n: u8, weights: u64) -> u64
    ensures { result ≡ held_count (counting n weights) s.now marks }
{
    quorum::weigh_marks(records::word(s, marks as usize), 0, n, weights)
}

// The READYs of instance i: a value that senders of weight q hold. Where less is held, nobody's value is looked at.
fn leading_ready(s: &[u64], g: Settings, q: u64, i: u8) -> Option<u64>
    ensures { result ≡ leading g (ready_held s.now i) (ready_value s.now i) q }
{
    let marks = layout::READY_MARKS as u16 + i as u16;
    let values = layout::READY_VALUES as u16 + 16 * i as u16;
    if held_count(s, marks, g.n, g.weights) < q {
        return None;
    }
    leading_of(s, marks, values, g.n, g.weights, q)
}

// The ECHOs of instance i: a value that senders of weight q hold. As one function with `leading_ready`, over the two places, it would not be
// compiled into its callers, which ask for nothing more than the weight most of the time (docs/PERFORMANCE.md).
fn leading_echo(s: &[u64], g: Settings, q: u64, i: u8) -> Option<u64>
    ensures { result ≡ leading g (echo_held s.now i) (echo_value s.now i) q }
{
    let marks = layout::ECHO_MARKS as u16 + i as u16;
    let values = layout::ECHO_VALUES as u16 + 16 * i as u16;
    if held_count(s, marks, g.n, g.weights) < q {
        return None;
    }
    leading_of(s, marks, values, g.n, g.weights, q)
}

// The output of broadcast i.
pub fn output_of(s: &[u64], g: Settings, i: u8) -> Option<u64>
    ensures { result ≡ output g s.now i }
{
    leading_ready(s, g, g.quorum(), i)
}

// The outputs of the broadcasts 1 to n, worked out once: mark i is set where broadcast i has output, whose value stands at place i − 1.
#[derive(Clone, Copy)]
pub struct OutputTable {
    pub marks: u64,
    pub values: [u64; 16],
}

impl OutputTable {
    // Broadcast i has output o.
    fn store(&mut self, i: u8, o: Option<u64>)
        requires { 1 ≤ i }
        ensures { Stored self.old.marks self.old.values i o self.new.marks self.new.values }
    {
        let Some(v) = o else {
            return;
        };
        records::put(&mut self.values, i as usize - 1, v);
        self.marks = quorum::with_mark(self.marks, i as u64);
    }

    // The outputs of the broadcasts of a state.
    pub fn of(s: &[u64], g: Settings) -> OutputTable
        ensures { Outputs g s.now g.n result.marks result.values }
    {
        let mut all = OutputTable {
            marks: 0,
            values: [0u64; 16],
        };
        for k in 0..g.n {
            let i = k + 1;
            let o = output_of(s, g, i);
            all.store(i, o);
        }
        all
    }

    // The output of broadcast i.
    pub fn at(&self, i: u8) -> Option<u64>
        ensures { result ≡ outputs_in self.now i }
    {
        output_at(self.marks, &self.values, i)
    }
}

// What marks and values say of broadcast i.
pub fn output_at(outputs: u64, values: &[u64], i: u8) -> Option<u64>
    ensures { result ≡ output_at outputs values.now i }
{
    if i < 1 {
        return None;
    }
    if 16 < i {
        return None;
    }
    if quorum::mark(outputs, i as u64) {
        return Some(records::word(values, i as usize - 1));
    }
    None
}

// The ECHO of instance i, where it is due.
pub fn echo_act(s: &[u64], i: u8) -> Act
    ensures { result ≡ echo_act s.now i }
{
    if records::echo_sent(s, i) {
        return Act::Idle;
    }
    if records::send_held(s, i) {
        return Act::Echo(i, records::send_value(s, i));
    }
    Act::Idle
}

// The value of the READY of instance i.
fn ready_due(s: &[u64], g: Settings, i: u8) -> Option<u64>
    ensures { result ≡ ready_due g s.now i }
{
    let o = leading_echo(s, g, g.quorum(), i);
    match o {
        Some(v) => Some(v),
        None => leading_ready(s, g, g.repeat(), i),
    }
}

// The READY of instance i, where it is due.
pub fn ready_act(s: &[u64], g: Settings, i: u8) -> Act
    ensures { result ≡ ready_act g s.now i }
{
    if records::ready_sent(s, i) {
        return Act::Idle;
    }
    let o = ready_due(s, g, i);
    match o {
        Some(v) => Act::Ready(i, v),
        None => Act::Idle,
    }
}

// Rule 4: the ECHO that is due.
pub fn echo_rule(s: &[u64], g: Settings) -> Act
    ensures { result ≡ echo_rule g s.now }
{
    acts::first_due(g.n, |i| echo_act(s, i))
}

// Rule 5: the READY that is due.
pub fn ready_rule(s: &[u64], g: Settings) -> Act
    ensures { result ≡ ready_rule g s.now }
{
    acts::first_due(g.n, |i| ready_act(s, g, i))
}
