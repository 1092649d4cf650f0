// The message bytes, both ways: reading a message that came over a link, and writing one.
#![tactic(auto)]

mod bytes;
mod kind;
mod reading;
mod writing;

pub use kind::{Kind, UnknownKind};
pub use reading::{read_message, value_at};
pub use writing::{message_length, write_message, write_plain};

#[derive(Clone, Copy)]
pub enum Message {
    Send { instance: u8, value: u64 },
    Echo { instance: u8, value: u64 },
    Ready { instance: u8, value: u64 },
    Est { instance: u8, round: u8, value: u8 },
    Aux { instance: u8, round: u8, value: u8 },
    // Its values stand beside it, in the lent bytes.
    Commit { count: u8 },
    // In sessions of version 2 only.
    Finish { instance: u8, value: u8 },
}

// Bytes 0 to 11; reserved is bytes 6 and 7, high byte first.
#[derive(Clone, Copy)]
pub struct Header {
    pub version: u8,
    pub kind: u8,
    pub sender: u8,
    pub instance: u8,
    pub round: u8,
    pub count: u8,
    pub reserved: u16,
    pub session: u32,
}
