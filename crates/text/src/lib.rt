// Fields and numbers as text, for the lines of the journal and of the drill.
#![tactic(auto)]

mod digits;
mod writing;

pub use digits::{DECIMAL, appended, base, complete, digit, fits};
pub use writing::{put_byte, put_decimal, put_hex, put_hex_bytes, put_text, put_word};
