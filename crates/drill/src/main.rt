// The drill program: its input is standard input, its output goes to standard output.
#![tactic(auto)]

use drill_core::Drill;
use std::io::{Read, Result, Write};

// Reads once, and feeds what came; None where the input is over. A read that fails ends the input.
fn feed_some<R: Read>(
    input: &mut R,
    d: Drill,
    words: &mut [u64],
    store: &mut [u8],
) -> Option<Drill> {
    let mut buf = [0u8; 4096];
    let n = input.read(&mut buf).unwrap_or(0);
    if n == 0 {
        return None;
    }
    Some(drill_core::feed_all(d, &buf[..n], words, store))
}

// A proved loop has to end, and nothing says that an input does. So the loop counts its turns, up to a number that no run uses
// up.
fn feed_input<R: Read>(input: &mut R, d: Drill, words: &mut [u64], store: &mut [u8]) -> Drill {
    let mut drill = d;
    for _ in 0..u64::MAX {
        let Some(fed) = feed_some(input, drill, words, store) else {
            break;
        };
        drill = fed;
    }
    drill
}

// Writes the output of a drill whose input is over: the lent bytes hold all of it (drill_laws::output_whole).
fn print<W: Write>(to: &mut W, d: Drill, words: &mut [u64], store: &mut [u8]) -> Result<()> {
    let mut out = [0u8; 2048];
    let n = drill_core::finish(d, words, store, &mut out);
    to.write_all(&out[..n])
}

fn main(rt: HostRuntime) -> Result<()> {
    let mut words = [0u64; 8192];
    let mut store = [0u8; 70496];
    let mut input = rt.reader();
    let d = feed_input(&mut input, drill_core::start(), &mut words, &mut store);
    let mut output = std::io::writer(&rt);
    print(&mut output, d, &mut words, &mut store)
}
