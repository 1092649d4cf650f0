// Messages of concentrator 1 to one of four in session 7, each with one byte changed, and the number of the refusal (0: taken). The session
// is of version 1, but for FINISHes.
#![tactic(auto)]

use settings::Refusal;
use std::io::Result;
use wire::Message;

fn answer(p: std::result::Result<Message, Refusal>) -> u64 {
    match p {
        Err(k) => u64::from(k),
        Ok(_) => 0,
    }
}

fn change(bytes: &mut [u8], at: usize, byte: u8) {
    if at < bytes.len() {
        bytes[at] = byte;
    }
}

// The message m in a session of that version, with a byte changed, in length bytes from a link; up to 17 values stand beside a COMMIT.
fn case_of(
    rt: &impl Print,
    version: u8,
    name: &str,
    m: Message,
    at: usize,
    byte: u8,
    length: isize,
    link: u64,
) -> Result<()> {
    let values = [
        5, 6, 7, 8, 9, 10, 11, 12, 13, 14, 15, 16, 17, 18, 19, 20, 21,
    ];
    let mut bytes = [0u8; 160];
    wire::write_message(m, version, 1, 7, &values, &mut bytes);
    change(&mut bytes, at, byte);
    let end = io::count(length, &bytes);
    let number = answer(wire::read_message(&bytes[..end], version as u64, 4, 7, link));
    println!(rt; "{name}\t{number}")
}

fn case(
    rt: &impl Print,
    name: &str,
    m: Message,
    at: usize,
    byte: u8,
    length: isize,
    link: u64,
) -> Result<()> {
    case_of(rt, 1, name, m, at, byte, length, link)
}

fn send() -> Message {
    Message::Send {
        instance: 1,
        value: 5,
    }
}

fn est() -> Message {
    Message::Est {
        instance: 2,
        round: 32,
        value: 1,
    }
}

fn commit(count: u8) -> Message {
    Message::Commit { count }
}

fn taken(rt: &impl Print) -> Result<()> {
    case(rt, "SEND", send(), 0, 1, 20, 1)?;
    case(rt, "EST round 32", est(), 0, 1, 20, 1)?;
    case(rt, "COMMIT of 4", commit(4), 0, 1, 44, 1)
}

fn lengths(rt: &impl Print) -> Result<()> {
    case(rt, "11 bytes", send(), 0, 1, 11, 1)?;
    case(rt, "21 bytes", send(), 0, 1, 21, 1)?;
    case(rt, "SEND count 2 in 20 bytes", send(), 5, 2, 20, 1)?;
    case(rt, "SEND count 2 in 28 bytes", send(), 5, 2, 28, 1)?;
    case(rt, "SEND count 0 in 12 bytes", send(), 5, 0, 12, 1)?;
    case(rt, "COMMIT of 17 in 148 bytes", commit(17), 0, 1, 148, 1)
}

fn origins(rt: &impl Print) -> Result<()> {
    case(rt, "version 2", send(), 0, 2, 20, 1)?;
    case(rt, "kind 7", send(), 1, 7, 20, 1)?;
    case(rt, "session 8", send(), 11, 8, 20, 1)?;
    case(rt, "sender 1 from link 2", send(), 0, 1, 20, 2)?;
    case(rt, "sender 1 from link 257", send(), 0, 1, 20, 257)?;
    case(rt, "sender 0 from link 0", send(), 2, 0, 20, 0)?;
    case(rt, "sender 5 from link 5", send(), 2, 5, 20, 5)
}

fn fields(rt: &impl Print) -> Result<()> {
    case(rt, "SEND of instance 2", send(), 3, 2, 20, 1)?;
    case(rt, "EST round 0", est(), 4, 0, 20, 1)?;
    case(rt, "EST round 33", est(), 4, 33, 20, 1)?;
    case(rt, "reserved byte 1", send(), 7, 1, 20, 1)?;
    case(rt, "EST value 2", est(), 19, 2, 20, 1)?;
    case(rt, "COMMIT with equal values", commit(3), 27, 5, 36, 1)?;
    case(rt, "COMMIT that falls", commit(3), 35, 1, 36, 1)
}

fn finish() -> Message {
    Message::Finish {
        instance: 4,
        value: 1,
    }
}

fn finishes(rt: &impl Print) -> Result<()> {
    case_of(rt, 2, "FINISH", finish(), 0, 2, 20, 1)?;
    case_of(rt, 2, "FINISH of version 1", finish(), 0, 1, 20, 1)?;
    case_of(rt, 1, "FINISH in version 1", finish(), 0, 1, 20, 1)?;
    case_of(rt, 2, "kind 8 in version 2", finish(), 1, 8, 20, 1)?;
    case_of(rt, 2, "SEND in version 2", send(), 0, 2, 20, 1)?;
    case_of(rt, 2, "FINISH of instance 5", finish(), 3, 5, 20, 1)?;
    case_of(rt, 2, "FINISH round 1", finish(), 4, 1, 20, 1)?;
    case_of(rt, 2, "FINISH count 2 in 28 bytes", finish(), 5, 2, 28, 1)?;
    case_of(rt, 2, "FINISH value 2", finish(), 19, 2, 20, 1)
}

fn main(rt: HostRuntime) -> Result<()> {
    taken(&rt)?;
    lengths(&rt)?;
    origins(&rt)?;
    fields(&rt)?;
    finishes(&rt)
}
