// Delivery lists: records on standard input to drill lines on standard output (`to-drill`), or lines to records (`to-csv`).
#![tactic(auto)]

ghost use Rattle.std.specs.Prelude.{◌≡◌, ◌+◌, ◌*◌, ◌<◌, ◌≤◌, length, IfOk, IfSome};
ghost use Rattle.delivery_lists.specs.laws.Bounds.{Bounded};

use delivery_csv::{Direction, Stop, ToCsv, ToDrill};
use std::io::{self, Error, Read, Write};
use std::{env, fmt};

// What the only argument names.
#[derive(Clone, Copy, Debug, PartialEq, Eq)]
enum Task {
    ToDrill,
    ToCsv,
}

// What is kept from read to read.
#[derive(Clone, Copy)]
struct State {
    // How many bytes at the front of the input's buffer are not converted yet.
    held: usize,
    // How many records or lines are converted.
    count: u64,
}

// Why a run ends before its input.
#[derive(Drop)]
enum Failure {
    Read(Error),
    Write(Error),
    // The number of the first record or line that is not taken.
    Refused(u64),
}

// The line of a refusal. Neither the drill nor this program takes it: its only field is too long.
#[derive(Clone, Copy)]
struct Refusal<'a> {
    kind: &'a str,
    number: u64,
}

impl<'a> fmt::Display for Refusal<'a> {
    fn fmt<W: fmt::Write>(&self, f: &mut fmt::Formatter<W>) -> fmt::Result {
        write!(
            f,
            "13 RECORD: {} {} is not taken: a broken quote",
            self.kind, self.number
        )?;
        write!(
            f,
            " or a tab or CR or LF in a field or a field over 64 bytes or more than 16 fields"
        )
    }
}

// What 65,536 bytes are converted to is at most three times as long, and 3 bytes.
fn room() -> [u8; 200000]
    ensures { 200000 ≡ length result }
{
    [0; 200000]
}

// Writes all bytes.
fn write(rt: &HostRuntime, bytes: &[u8]) -> Result<(), Failure> {
    rt.stdout().write_all(bytes).map_err(Failure::Write)
}

// Reads once.
fn read<R: Read>(from: &mut R, input: &mut [u8]) -> Result<usize, Failure>
    ensures { IfOk result (λ n. n ≤ length input.new) }
{
    from.read(input).map_err(Failure::Read)
}

// Writes the text of what stands before a record or line that is not taken, and refuses that one.
fn refuse(rt: &HostRuntime, s: State, stop: Stop, out: &[u8]) -> Failure
    requires { Bounded stop (length out.now) }
{
    match stop {
        Stop::Short => unreachable!(),
        Stop::Refused { written, count } => match write(rt, &out[..written]) {
            Ok(()) => Failure::Refused(s.count.wrapping_add(count).wrapping_add(1)),
            Err(failure) => failure,
        },
    }
}

// The input is over: converts its rest.
fn finish<D: Direction>(
    rt: &HostRuntime,
    s: State,
    input: &[u8],
    out: &mut [u8],
) -> Result<(), Failure>
    requires { (s.held ≤ length input.now) × (3 * length input.now + 3 ≤ length out.old) }
{
    match delivery_csv::convert_rest::<D>(&input[..s.held], out) {
        Ok(written) => write(rt, &out[..written]),
        Err(stop) => Err(refuse(rt, s, stop, out)),
    }
}

// There are n bytes: converts what is ended of them, and keeps the rest.
fn convert_some<D: Direction>(
    rt: &HostRuntime,
    s: State,
    n: usize,
    input: &mut [u8],
    out: &mut [u8],
) -> Result<State, Failure>
    requires { (n ≤ length input.old) × (3 * length input.old + 3 ≤ length out.old) }
    ensures { IfOk result (λ s. s.held < 4096) }
{
    match delivery_csv::convert_ended::<D>(&input[..n], out) {
        Ok(x) => {
            write(rt, &out[..x.written])?;
            input.copy_within(x.length..n, 0);
            Ok(State {
                held: n - x.length,
                count: s.count.wrapping_add(x.count),
            })
        }
        Err(stop) => Err(refuse(rt, s, stop, out)),
    }
}

// Reads once, behind the bytes that are held, and converts. There is room for a byte, so that a read of none is the end.
fn advance<D: Direction, R: Read>(
    rt: &HostRuntime,
    from: &mut R,
    s: State,
    input: &mut [u8],
    out: &mut [u8],
) -> Result<Option<State>, Failure>
    requires { (s.held < length input.old) × (3 * length input.old + 3 ≤ length out.old) }
    ensures { IfOk result (λ o. IfSome o (λ s. s.held < 4096)) }
{
    let held = s.held;
    let got = read(from, &mut input[held..])?;
    if got == 0 {
        finish::<D>(rt, s, input, out)?;
        return Ok(None);
    }
    Ok(Some(convert_some::<D>(rt, s, held + got, input, out)?))
}

// A proved loop has to end, and nothing says that an input does. So the loop counts its turns, up to a number that no run uses up.
fn convert<D: Direction, R: Read>(
    rt: &HostRuntime,
    from: &mut R,
    input: &mut [u8],
    out: &mut [u8],
) -> Result<(), Failure>
    requires { (4096 ≤ length input.old) × (3 * length input.old + 3 ≤ length out.old) }
{
    let mut s = State { held: 0, count: 0 };
    for _ in 0..u64::MAX {
        match advance::<D, R>(rt, from, s, input, out)? {
            Some(next) => s = next,
            None => return Ok(()),
        }
    }
    Ok(())
}

// Says what failed and why, as far as standard error takes it; a refusal goes to both outputs.
fn report(rt: &HostRuntime, kind: &str, failure: Failure) {
    let _ = match failure {
        Failure::Read(error) => eprintln!(rt; "read: {error}"),
        Failure::Write(error) => eprintln!(rt; "write: {error}"),
        Failure::Refused(number) => {
            let refusal = Refusal { kind, number };
            if let Err(error) = println!(rt; "{refusal}") {
                let _ = eprintln!(rt; "write: {error}");
            }
            eprintln!(rt; "{refusal}")
        }
    };
}

fn run<D: Direction>(rt: &HostRuntime, kind: &str) {
    let mut from = rt.reader();
    let mut input = [0u8; 65536];
    let mut out = room();
    if let Err(failure) = convert::<D, _>(rt, &mut from, &mut input, &mut out) {
        report(rt, kind, failure);
    }
}

// What the only argument names.
fn named_task(rt: &HostRuntime) -> io::Result<Option<Task>> {
    let mut arguments = env::args(rt)?;
    let _program = arguments.next();
    let name = arguments.next();
    if arguments.next().is_some() {
        return Ok(None);
    }
    match name {
        Some(word) => match word.as_str() {
            "to-drill" => Ok(Some(Task::ToDrill)),
            "to-csv" => Ok(Some(Task::ToCsv)),
            _ => Ok(None),
        },
        None => Ok(None),
    }
}

// An argument that is no text names no direction, either.
fn main(rt: HostRuntime) {
    match named_task(&rt) {
        Ok(Some(Task::ToDrill)) => run::<ToDrill>(&rt, "record"),
        Ok(Some(Task::ToCsv)) => run::<ToCsv>(&rt, "line"),
        _ => {
            let _ = eprintln!(rt; "usage: delivery_lists to-drill | to-csv");
        }
    }
}
