// Reading a message: the refusals 2 to 7 in their order, or the message.
ghost use Rattle.std.specs.Prelude.{◌≡◌, ◌+◌, ◌*◌, ◌<◌, ◌≤◌, length, cond, leb, Ok, Err};
ghost use Rattle.wire.specs.Bytes.{value_at, values, rises};
ghost use Rattle.wire.specs.Kinds.{byte_of};
ghost use Rattle.settings.specs.declared.refusal.Refusal.TheVariants as refusal;
ghost use Rattle.wire.specs.declared.Message.TheVariants.{Commit};
ghost use Rattle.wire.specs.Reading.{length_right, kind_known, sender_right, broadcast_fields, vote_fields, commit_fields, fields_right, header_of, taken_if, read_values, read_checked, read_message};

use crate::bytes::{be2, be4, be8};
use crate::{Header, Kind, Message};
use settings::{Refusal, Settings};

// Value k, from 1, of the part of a message that starts at byte 12; 0 where the part does not hold it.
pub fn value_at(values: &[u8], k: u8) -> u64
    ensures { result ≡ value_at values.now k }
{
    if k == 0 {
        return 0;
    }
    let end = 8 * usize::from(k);
    if values.len() < end {
        return 0;
    }
    be8(values, end - 8)
}

// Whether the first count values rise strictly.
fn rising(part: &[u8], count: u8) -> bool
    ensures { result ≡ rises (values count part.now) }
{
    let mut last = value_at(part, 1);
    for k in 1..count {
        let next = value_at(part, k + 1);
        if next <= last {
            return false;
        }
        last = next;
    }
    true
}

fn length_right(bytes: &[u8]) -> bool
    ensures { result ≡ length_right bytes.now }
{
    if bytes.len() < 12 {
        return false;
    }
    bytes.len() as u64 == 12 + 8 * u64::from(bytes[5])
}

// Whether version and kind are those of a session of version `own`.
fn kind_known(own: u64, version: u8, kind: Kind) -> bool
    ensures { result ≡ kind_known own version (byte_of kind) }
{
    let own_version = u64::from(version) == own;
    match kind {
        Kind::Finish => own_version & settings::finishing(own),
        _ => own_version,
    }
}

// The link's number is compared whole.
fn sender_right(n: u8, link: u64, sender: u8) -> bool
    ensures { result ≡ sender_right n link sender }
{
    (u64::from(sender) == link) & ((1 <= link) & (link <= u64::from(n)))
}

// SEND, ECHO, READY and FINISH: an instance, no round, one value.
fn broadcast_fields(n: u8, h: Header) -> bool
    ensures { result ≡ broadcast_fields n h }
{
    ((1 <= h.instance) & (h.instance <= n)) & (h.round == 0) & (h.count == 1)
}

// EST and AUX: an instance, a round, one value.
fn vote_fields(n: u8, h: Header) -> bool
    ensures { result ≡ vote_fields n h }
{
    ((1 <= h.instance) & (h.instance <= n))
        & ((1 <= h.round) & (h.round <= Settings::ROUND_LIMIT))
        & (h.count == 1)
}

// COMMIT: no instance, no round, up to n values.
fn commit_fields(n: u8, h: Header) -> bool
    ensures { result ≡ commit_fields n h }
{
    (h.instance == 0) & (h.round == 0) & ((1 <= h.count) & (h.count <= n))
}

// Bytes 3 to 7 against the layout of the kind.
fn fields_right(n: u8, kind: Kind, h: Header) -> bool
    requires { h.kind ≡ byte_of kind }
    ensures { result ≡ fields_right n h }
{
    if h.reserved != 0 {
        return false;
    }
    match kind {
        Kind::Send => broadcast_fields(n, h) & (h.instance == h.sender),
        Kind::Echo | Kind::Ready | Kind::Finish => broadcast_fields(n, h),
        Kind::Est | Kind::Aux => vote_fields(n, h),
        Kind::Commit => commit_fields(n, h),
    }
}

// A value that is 0 or 1.
fn bit(value: u64) -> Result<u8, Refusal>
    ensures { result ≡ cond (leb value 1) (Ok value) (Err refusal.Value) }
{
    if 1 < value {
        return Err(Refusal::Value);
    }
    Ok(value as u8)
}

// A COMMIT, if its values rise.
fn read_commit(count: u8, part: &[u8]) -> Result<Message, Refusal>
    ensures { result ≡ taken_if (rises (values count part.now)) (Commit count) }
{
    if rising(part, count) {
        return Ok(Message::Commit { count });
    }
    Err(Refusal::Value)
}

// The message with a header whose fields are right, from the part that holds its values.
fn read_values(kind: Kind, h: Header, part: &[u8]) -> Result<Message, Refusal>
    requires { h.kind ≡ byte_of kind }
    ensures { result ≡ read_values h part.now }
{
    let instance = h.instance;
    let round = h.round;
    let value = value_at(part, 1);
    match kind {
        Kind::Send => Ok(Message::Send { instance, value }),
        Kind::Echo => Ok(Message::Echo { instance, value }),
        Kind::Ready => Ok(Message::Ready { instance, value }),
        Kind::Est => {
            let value = bit(value)?;
            Ok(Message::Est {
                instance,
                round,
                value,
            })
        }
        Kind::Aux => {
            let value = bit(value)?;
            Ok(Message::Aux {
                instance,
                round,
                value,
            })
        }
        Kind::Commit => read_commit(h.count, part),
        Kind::Finish => {
            let value = bit(value)?;
            Ok(Message::Finish { instance, value })
        }
    }
}

// The first twelve bytes.
fn header_of(bytes: &[u8]) -> Header
    requires { 12 ≤ length bytes.now }
    ensures { result ≡ header_of bytes.now }
{
    Header {
        version: bytes[0],
        kind: bytes[1],
        sender: bytes[2],
        instance: bytes[3],
        round: bytes[4],
        count: bytes[5],
        reserved: be2(bytes, 6),
        session: be4(bytes, 8),
    }
}

// The refusals 3 to 7 in their order, or the message, from a header and the part that holds the values.
fn read_checked(
    version: u64,
    n: u8,
    session: u32,
    link: u64,
    h: Header,
    part: &[u8],
) -> Result<Message, Refusal>
    ensures { result ≡ read_checked version n session link h part.now }
{
    let Ok(kind) = Kind::try_from(h.kind) else {
        return Err(Refusal::Kind);
    };
    if !kind_known(version, h.version, kind) {
        return Err(Refusal::Kind);
    }
    if h.session != session {
        return Err(Refusal::Session);
    }
    if !sender_right(n, link, h.sender) {
        return Err(Refusal::Sender);
    }
    if !fields_right(n, kind, h) {
        return Err(Refusal::Field);
    }
    read_values(kind, h, part)
}

// Reads a message that came over the link of a concentrator, at one of n in a session of that version.
pub fn read_message(
    bytes: &[u8],
    version: u64,
    n: u8,
    session: u32,
    link: u64,
) -> Result<Message, Refusal>
    ensures { result ≡ read_message version n session link bytes.now }
{
    if !length_right(bytes) {
        return Err(Refusal::Length);
    }
    read_checked(version, n, session, link, header_of(bytes), &bytes[12..])
}
