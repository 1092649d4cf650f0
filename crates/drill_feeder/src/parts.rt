// Parts of the lent memory: the states of the sessions, and the places of the sent messages.
ghost use Rattle.std.specs.Prelude.{◌≡◌, ◌*◌, ◌+◌};
ghost use Rattle.drill_feeder.specs.laws.Parts.{PartOf};
ghost use Rattle.drill_feeder.specs.Parts.{byte_at, state_at, place_at};

use records::layout;
use std::ops::Range;

// The bytes of a place for a sent message.
const PLACE_BYTES: usize = 44;

// The part of so many elements from a place, and an empty one where the slice is too short.
pub fn part_of(length: usize, start: usize, size: usize) -> Range<usize>
    ensures { PartOf length start size result }
{
    match start.checked_add(size) {
        Some(end) if end <= length => start..end,
        _ => 0..0,
    }
}

// The state of session p.
pub fn state(words: usize, p: u8) -> Range<usize>
    ensures { PartOf words (state_at p) 2048 result }
{
    let at = layout::STATE_WORDS * usize::from(p.saturating_sub(1));
    part_of(words, at, layout::STATE_WORDS)
}

// The room of the message that is sent next.
pub fn room(bytes: usize, sent: u16) -> Range<usize>
    ensures { PartOf bytes (44 * sent) 140 result }
{
    part_of(bytes, PLACE_BYTES * usize::from(sent), turn::MESSAGE_BYTES)
}

// Where sent message k starts.
pub fn place_at(k: u16) -> usize
    ensures { result ≡ place_at k }
{
    PLACE_BYTES * usize::from(k.saturating_sub(1))
}

// The byte at a place, and 0 past the end.
#[tactic(auto, unfolding(crate::specs::Parts::byte_at))]
pub fn byte_at(store: &[u8], at: usize) -> u8
    ensures { result ≡ byte_at store.now at }
{
    store.get(at).copied().unwrap_or(0)
}
