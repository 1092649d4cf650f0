// The lines of a journal one after another. The message of the last line alone is given again: those before it are written nowhere.
ghost use Rattle.std.specs.Prelude.{◌≡◌, ◌≤◌, ◌<◌, length};
ghost use Rattle.restore.specs.Complete.{lines_of, joined};
ghost use Rattle.restore.specs.Restoring.{next_line, applied_or, replay};
ghost use Rattle.restore.specs.laws.Places.{line_end};
ghost use Rattle.restore.specs.laws.Applying.{Tried};
ghost use Rattle.restore.specs.laws.Replaying.{line_of, Replays, Begun, Placed};

use crate::{RestoreError, Restored, first, lines, reader};

// The last line: where it starts and ends, and its number.
#[derive(Clone, Copy)]
pub struct Last {
    pub start: usize,
    pub end: usize,
    pub number: u64,
}

// Applies a line that is not the last.
fn middle_line(copy: &mut [u64], line: &[u8]) -> bool
    ensures { Tried (next_line copy.old line.now) copy.old result copy.new }
{
    let mut scratch = [0u8; 140];
    lines::apply_line(copy, line, &mut scratch).is_some()
}

// Applies the lines but the first and the last; the second one is given by where it starts and ends.
fn middle(
    copy: &mut [u64],
    journal: &[u8],
    first: usize,
    second: usize,
) -> Result<Last, RestoreError>
    requires { Begun journal.now first copy.old × (second ≡ line_end journal.now first) × (first < second) }
    ensures { Placed journal.now result copy.new }
{
    let mut at = first;
    let mut end = second;
    let mut number: u64 = 2;
    let mut next = reader::line_end(journal, end);
    // A loop by hand: each line says where the next one starts, and no index is counted.
    while end < next {
        let stop = end - 1;
        if !middle_line(copy, &journal[at..stop]) {
            return Err(RestoreError::Line(number));
        }
        at = end;
        end = next;
        number += 1;
        next = reader::line_end(journal, end);
    }
    Ok(Last {
        start: at,
        end,
        number,
    })
}

// Applies the last line, and gives its message again.
fn last_line(
    copy: &mut [u64],
    journal: &[u8],
    last: Last,
    message: &mut [u8],
) -> Result<Restored, RestoreError>
    requires { (last.start < last.end) × (last.end ≤ length journal.now) × (140 ≤ length message.old) }
    ensures { Replays (applied_or last.number (next_line copy.old (line_of journal.now last.start last.end))) last.end message.old result copy.new message.new }
{
    let stop = last.end - 1;
    match lines::apply_line(copy, &journal[last.start..stop], message) {
        None => Err(RestoreError::Line(last.number)),
        Some(message) => Ok(Restored {
            message,
            bytes: last.end as u64,
        }),
    }
}

// Applies the lines after the first.
fn rest(
    copy: &mut [u64],
    journal: &[u8],
    first: usize,
    second: usize,
    message: &mut [u8],
) -> Result<Restored, RestoreError>
    requires { Begun journal.now first copy.old × (second ≡ line_end journal.now first) × (first < second) × (140 ≤ length message.old) }
    ensures { Replays (replay (lines_of journal.now)) (length (joined (lines_of journal.now))) message.old result copy.new message.new }
{
    let last = middle(copy, journal, first, second)?;
    last_line(copy, journal, last, message)
}

// Applies the lines after the first, if there are any.
fn further(
    copy: &mut [u64],
    journal: &[u8],
    first: usize,
    message: &mut [u8],
) -> Result<Restored, RestoreError>
    requires { Begun journal.now first copy.old × (140 ≤ length message.old) }
    ensures { Replays (replay (lines_of journal.now)) (length (joined (lines_of journal.now))) message.old result copy.new message.new }
{
    let second = reader::line_end(journal, first);
    if first < second {
        return rest(copy, journal, first, second, message);
    }
    Ok(Restored {
        message: 0,
        bytes: first as u64,
    })
}

// Applies all complete lines.
pub fn replay(
    copy: &mut [u64],
    journal: &[u8],
    message: &mut [u8],
) -> Result<Restored, RestoreError>
    requires { (length copy.old ≡ 2048) × (140 ≤ length message.old) }
    ensures { Replays (replay (lines_of journal.now)) (length (joined (lines_of journal.now))) message.old result copy.new message.new }
{
    let first = reader::line_end(journal, 0);
    if first == 0 {
        return Err(RestoreError::Line(1));
    }
    let stop = first - 1;
    if !first::open_line(copy, &journal[..stop]) {
        return Err(RestoreError::Line(1));
    }
    further(copy, journal, first, message)
}
