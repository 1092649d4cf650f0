// Openings with settings on the edge of the rules: for each a line `n ta ts open`, or `n ta ts 1`. Where weights are named,
// or the kind of coins and the coin words, the line has them too (PROTOCOL 1.13).
#![tactic(auto)]

ghost use Rattle.std.specs.Prelude.{◌≤◌};

use opening::Arguments;
use settings::Refusal;
use std::io;

const LARGEST: u64 = 18446744073709551615;
// Twice this is 2^64, which wraps to 0.
const HALF: u64 = 9223372036854775808;

fn number(rt: &impl Print, x: u64) -> io::Result<()> {
    print!(rt; "{x} ")
}

// How many of 17 coin words or weights are lent. Above 16 an opening is refused for n.
fn lent(n: u64) -> usize
    ensures { result ≤ 17 }
{
    n.min(17) as usize
}

// What a printed opening by concentrator 1 answers, lent n coin words.
fn answer(n: u64, ta: u64, ts: u64, weights: &[u8]) -> Result<(), Refusal> {
    let mut state = [0u64; 2048];
    let coins = [0u32; 17];
    let count = lent(n);
    let a = Arguments {
        version: 1,
        n,
        ta,
        ts,
        own: 1,
        session: 7,
        input: 5,
        coins: &coins[..count],
        weights,
        boxed: 0,
    };
    opening::open(&mut state, a)
}

fn print_answer(rt: &impl Print, answer: Result<(), Refusal>) -> io::Result<()> {
    match answer {
        Ok(()) => println!(rt; "open"),
        Err(refusal) => println!(rt; "{}", u64::from(refusal)),
    }
}

// With weights of 1.
fn edge(rt: &impl Print, n: u64, ta: u64, ts: u64) -> io::Result<()> {
    let ones = [1u8; 17];
    let count = lent(n);
    number(rt, n)?;
    number(rt, ta)?;
    number(rt, ts)?;
    print_answer(rt, answer(n, ta, ts, &ones[..count]))
}

fn print_weights(rt: &impl Print, weights: &[u8]) -> io::Result<()> {
    print!(rt; "weights")?;
    for x in weights {
        print!(rt; " {x}")?;
    }
    print!(rt; ": ")
}

fn weighted(rt: &impl Print, n: u64, ta: u64, ts: u64, weights: &[u8]) -> io::Result<()> {
    number(rt, n)?;
    number(rt, ta)?;
    number(rt, ts)?;
    print_weights(rt, weights)?;
    print_answer(rt, answer(n, ta, ts, weights))
}

// What an opening by concentrator 1 with n 4, ta 1, ts 1 and weights of 1 answers.
fn kind_answer(kind: u64, coins: &[u32]) -> Result<(), Refusal> {
    let mut state = [0u64; 2048];
    let ones = [1u8; 4];
    let a = Arguments {
        version: 1,
        n: 4,
        ta: 1,
        ts: 1,
        own: 1,
        session: 7,
        input: 5,
        coins,
        weights: &ones,
        boxed: kind,
    };
    opening::open(&mut state, a)
}

fn print_coins(rt: &impl Print, coins: &[u32]) -> io::Result<()> {
    print!(rt; "coins")?;
    for x in coins {
        print!(rt; " {x}")?;
    }
    print!(rt; ": ")
}

fn kind(rt: &impl Print, kind: u64, coins: &[u32]) -> io::Result<()> {
    number(rt, 4)?;
    number(rt, 1)?;
    number(rt, 1)?;
    print!(rt; "boxed ")?;
    number(rt, kind)?;
    print_coins(rt, coins)?;
    print_answer(rt, kind_answer(kind, coins))
}

fn main(rt: HostRuntime) -> io::Result<()> {
    edge(&rt, 4, 1, 1)?;
    edge(&rt, 7, 0, 3)?;
    edge(&rt, 1, 0, 0)?;
    edge(&rt, 3, 1, 1)?;
    edge(&rt, 4, 1, 0)?;
    edge(&rt, 0, 0, 0)?;
    edge(&rt, 17, 0, 0)?;
    unnamed(&rt)?;
    unnamed_weighted(&rt)?;
    huge(&rt)?;
    heavy(&rt)?;
    all_four(&rt)?;
    wrong_weights(&rt)?;
    boxed(&rt)?;
    wrong_boxed(&rt)
}

// A ta of 255 is the largest that is left, and refused where 2·ts is n.
fn unnamed(rt: &impl Print) -> io::Result<()> {
    edge(rt, 4, 255, 1)?;
    edge(rt, 4, 255, 2)?;
    edge(rt, 2, 255, 1)?;
    edge(rt, 16, 255, 7)?;
    edge(rt, 16, 255, 8)?;
    edge(rt, 17, 255, 0)?;
    edge(rt, 4, 255, HALF)?;
    edge(rt, 4, 255, LARGEST)?;
    edge(rt, 4, 256, 1)
}

fn unnamed_weighted(rt: &impl Print) -> io::Result<()> {
    weighted(rt, 2, 255, 2, &[4, 1])?;
    weighted(rt, 2, 255, 3, &[4, 1])?;
    weighted(rt, 2, 255, 0, &[0, 1])
}

// Numbers that a sum or a narrower type would wrap.
fn huge(rt: &impl Print) -> io::Result<()> {
    edge(rt, LARGEST, 0, 0)?;
    edge(rt, 4, LARGEST, 1)?;
    edge(rt, 4, 0, LARGEST)?;
    edge(rt, LARGEST, LARGEST, LARGEST)?;
    edge(rt, 4, 0, HALF)?;
    edge(rt, 260, 1, 1)?;
    edge(rt, 4, 257, 257)
}

// The sum of the weights stands in the place of n.
fn heavy(rt: &impl Print) -> io::Result<()> {
    weighted(rt, 1, 1, 1, &[4])?;
    weighted(rt, 2, 1, 1, &[4, 1])?;
    weighted(rt, 2, 1, 2, &[4, 1])?;
    weighted(rt, 2, 1, 1, &[1, 1])?;
    weighted(rt, 3, 3, 4, &[4, 4, 4])?;
    weighted(rt, 3, 4, 4, &[4, 4, 4])
}

// The largest sum, 64.
fn all_four(rt: &impl Print) -> io::Result<()> {
    let fours = [4u8; 16];
    weighted(rt, 16, 1, 31, &fours)?;
    weighted(rt, 16, 1, 32, &fours)?;
    weighted(rt, 16, 21, 21, &fours)?;
    weighted(rt, 16, 22, 22, &fours)
}

// A weight of 0 or over 4, and not exactly n weights. The lowest three binary digits of 9 are a weight of 1.
fn wrong_weights(rt: &impl Print) -> io::Result<()> {
    weighted(rt, 2, 0, 0, &[0, 1])?;
    weighted(rt, 2, 0, 0, &[1, 5])?;
    weighted(rt, 2, 0, 0, &[9, 1])?;
    weighted(rt, 2, 0, 0, &[1])?;
    weighted(rt, 2, 0, 0, &[1, 1, 1])?;
    weighted(rt, 2, 0, 0, &[])
}

// Printed coins are any words, boxed ones are 0.
fn boxed(rt: &impl Print) -> io::Result<()> {
    kind(rt, 0, &[0, 0, 0, 0])?;
    kind(rt, 0, &[1, 2, 3, 4294967295])?;
    kind(rt, 1, &[0, 0, 0, 0])?;
    kind(rt, 1, &[1, 0, 0, 0])?;
    kind(rt, 1, &[0, 0, 0, 1])?;
    kind(rt, 1, &[0, 2147483648, 0, 0])
}

// Neither 0 nor 1, and boxed with not exactly n coin words.
fn wrong_boxed(rt: &impl Print) -> io::Result<()> {
    kind(rt, 2, &[0, 0, 0, 0])?;
    kind(rt, 256, &[0, 0, 0, 0])?;
    kind(rt, LARGEST, &[0, 0, 0, 0])?;
    kind(rt, 1, &[0, 0, 0])?;
    kind(rt, 1, &[0, 0, 0, 0, 0])?;
    kind(rt, 1, &[])
}
