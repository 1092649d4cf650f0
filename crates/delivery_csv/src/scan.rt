// What judging a text keeps from byte to byte.
ghost use Rattle.std.specs.Prelude.{◌≡◌, ◌+◌, ◌<◌, ◌^◌, true};
ghost use Rattle.delivery_csv.specs.laws.Room.{spent, room_answer, passed, answered};

use crate::ConversionError;

// A text of which some bytes are judged.
#[derive(Clone, Copy)]
pub struct Scan<R> {
    // Nothing once a record or line cannot be taken.
    pub reader: Option<R>,
    // How many records or lines are over.
    pub count: u64,
    // What is left of the lent bytes, and nothing once more was spent than there was.
    pub room: Option<usize>,
}

// The room after so many bytes more.
#[tactic(auto, using(crate::specs::laws::Room::spent_checked), unfolding(crate::specs::laws::Room::spent))]
pub fn spend(room: Option<usize>, bytes: usize) -> Option<usize>
    ensures { result ≡ spent room bytes }
{
    room?.checked_sub(bytes)
}

// The answer where a text leaves this room of so many bytes.
#[tactic(auto, unfolding(crate::specs::laws::Room::room_answer))]
fn answer(all: usize, room: Option<usize>) -> Result<usize, ConversionError>
    ensures { result ≡ room_answer all room }
{
    let left = room.ok_or(ConversionError::Short)?;
    Ok(all.saturating_sub(left))
}

impl<R: Copy> Scan<R> {
    // One more byte: the reader after it, whether it ends a record or line, and how many bytes are written for it.
    #[tactic(auto, using(crate::specs::laws::Outcomes::counting), unfolding(crate::specs::laws::Room::passed))]
    pub fn passed(self, reader: Option<R>, ends: bool, written: usize) -> Scan<R>
        requires { self.count + 1 < 2 ^ 64 }
        ensures { result ≡ passed self reader ends written }
    {
        Scan {
            reader,
            count: self.count + u64::from(ends),
            room: spend(self.room, written),
        }
    }

    // The text is over: whether the record or line that it ends in is broken, and how many bytes are written for the end.
    #[tactic(auto, unfolding(crate::specs::laws::Room::answered))]
    pub fn answer(self, all: usize, broken: bool, written: usize) -> Result<usize, ConversionError>
        requires { broken ≡ true → self.count + 1 < 2 ^ 64 }
        ensures { result ≡ answered all self broken written }
    {
        if broken {
            return Err(ConversionError::Record(self.count + 1));
        }
        answer(all, spend(self.room, written))
    }
}
