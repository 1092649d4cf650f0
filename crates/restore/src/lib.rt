// Restoring a state from the lines of its journal.
#![tactic(auto)]

mod fields;
mod first;
mod lines;
mod reader;
mod replay;

ghost use Rattle.std.specs.Prelude.{◌≡◌, ◌≤◌, length};
ghost use Rattle.restore.specs.Complete.{lines_of, joined};
ghost use Rattle.restore.specs.Restoring.{replay, restore_answer, restored_words, restored_bytes};
ghost use Rattle.restore.specs.laws.Restored.{Restores};

use records::layout;
use settings::Refusal;

// What a restore gives: the length of the message that is given again, 0 for none, and the bytes of the journal up to the end of its last
// complete line.
#[derive(Clone, Copy, Debug, PartialEq, Eq)]
pub struct Restored {
    pub message: u64,
    pub bytes: u64,
}

#[derive(Clone, Copy, Debug, PartialEq, Eq)]
pub enum RestoreError {
    // The state's words or the lent bytes are too few.
    Lent(Refusal),
    // The line of that number, from 1, cannot be applied.
    Line(u64),
}

// Restores into a copy, which becomes the state where all lines can be applied.
fn restore_onto(
    state: &mut [u64],
    journal: &[u8],
    message: &mut [u8],
) -> Result<Restored, RestoreError>
    requires { (length state.old ≡ 2048) × (140 ≤ length message.old) }
    ensures { Restores (replay (lines_of journal.now)) (length (joined (lines_of journal.now))) state.old message.old result state.new message.new }
{
    let mut copy = [0u64; 2048];
    let restored = replay::replay(&mut copy, journal, message)?;
    state.copy_from_slice(&copy);
    Ok(restored)
}

// Restores a state from the complete lines of its journal. The lent bytes take the message of the last line again, if it sent one. A refusal
// leaves the words and the bytes.
pub fn restore(
    state: &mut [u64],
    journal: &[u8],
    message: &mut [u8],
) -> Result<Restored, RestoreError>
    ensures answer { result ≡ restore_answer state.old journal.now (length message.old) }
    ensures words { state.new ≡ restored_words state.old journal.now (length message.old) }
    ensures bytes { message.new ≡ restored_bytes (length state.old) journal.now message.old }
{
    if state.len() != layout::STATE_WORDS {
        return Err(RestoreError::Lent(Refusal::NoState));
    }
    if message.len() < turn::MESSAGE_BYTES {
        return Err(RestoreError::Lent(Refusal::Short));
    }
    restore_onto(state, journal, message)
}
