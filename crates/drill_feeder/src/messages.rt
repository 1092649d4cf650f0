// Deliveries of a drill: a sent message, and a liar's.
ghost use Rattle.std.specs.Prelude.{◌≡◌};
ghost use Rattle.drill_feeder.specs.Lines.{message_delivered, lied};

use crate::{Lie, calls, parts};
use wire::Header;

// Delivers sent message k to session q over the link of its sender.
pub fn deliver_message(words: &mut [u64], store: &[u8], k: u16, q: u8)
    ensures { words.new ≡ message_delivered store.now k q words.old }
{
    let at = parts::place_at(k);
    let sender = parts::byte_at(store, at + 2);
    let count = parts::byte_at(store, at + 5);
    let b = parts::part_of(store.len(), at, 12 + 8 * usize::from(count));
    calls::deliver_to(words, q, sender, &store[b.start..b.end]);
}

// Delivers a liar's message to session q over the liar's link.
pub fn deliver_lie(words: &mut [u64], session: u32, q: u8, l: Lie)
    ensures { words.new ≡ lied session q l words.old }
{
    let mut bytes = [0u8; 20];
    let header = Header {
        version: 1,
        kind: l.kind,
        sender: l.p,
        instance: l.instance,
        round: l.round,
        count: 1,
        reserved: 0,
        session,
    };
    wire::write_plain(header, l.value, &mut bytes);
    calls::deliver_to(words, q, l.p, &bytes);
}
