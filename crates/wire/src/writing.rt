// Writing a message.
ghost use Rattle.std.specs.Prelude.{◌≡◌, ◌+◌, ◌*◌, ◌<◌, ◌≤◌, [], ◌∷◌, ◌++◌, length, drop};
ghost use Rattle.wire.specs.Message.{length_of, header_for, front_bytes, header_bytes, message_bytes};
ghost use Rattle.wire.specs.Writing.{fitting, written, Wrote};
ghost use Rattle.wire.specs.laws.Message.{counted_values};

use crate::bytes::{put_values, put4};
use crate::{Header, Message};

// The length of a message in bytes.
pub fn message_length(m: Message) -> usize
    ensures { result ≡ length_of m }
{
    12 + 8 * usize::from(m.count())
}

// Bytes 0 to 11 of a message.
fn header_for(m: Message, version: u8, sender: u8, session: u32) -> Header
    ensures { result ≡ header_for m version sender session }
{
    Header {
        version,
        kind: u8::from(m.kind()),
        sender,
        instance: m.instance(),
        round: m.round(),
        count: m.count(),
        reserved: 0,
        session,
    }
}

// Bytes 0 to 7.
fn put_front(out: &mut [u8], h: Header)
    requires { 8 ≤ length out.old }
    ensures { out.new ≡ front_bytes h ++ drop 8 out.old }
{
    out[0] = h.version;
    out[1] = h.kind;
    out[2] = h.sender;
    out[3] = h.instance;
    out[4] = h.round;
    out[5] = h.count;
    let reserved = h.reserved.to_be_bytes();
    out[6] = reserved[0];
    out[7] = reserved[1];
}

// Bytes 0 to 11.
fn put_header(out: &mut [u8], h: Header)
    requires { 12 ≤ length out.old }
    ensures { out.new ≡ header_bytes h ++ drop 12 out.old }
{
    put_front(out, h);
    put4(&mut out[8..], h.session);
}

// A header and the values after it at the front of out; answers their number of bytes, 0 where out is too short.
fn write_values(h: Header, values: &[u64], out: &mut [u8]) -> usize
    ensures { Wrote (fitting (message_bytes h values.now) out.old) out.old result out.new }
{
    let end = 12 + 8 * values.len();
    if out.len() < end {
        return 0;
    }
    put_header(out, h);
    put_values(values, &mut out[12..]);
    end
}

// The same with as many of the values as the header counts; nothing where there are fewer.
fn write_counted(h: Header, values: &[u64], out: &mut [u8]) -> usize
    ensures { Wrote (counted_values h values.now out.old) out.old result out.new }
{
    let count = usize::from(h.count);
    if values.len() < count {
        return 0;
    }
    write_values(h, &values[..count], out)
}

// Writes a one-value message with any header, 20 bytes; nothing where out is shorter, and answers 0.
pub fn write_plain(h: Header, value: u64, out: &mut [u8]) -> usize
    ensures { Wrote (fitting (message_bytes h (value ∷ [])) out.old) out.old result out.new }
{
    let values = [value];
    write_values(h, &values, out)
}

// Writes a message at the front of out and answers its length; a COMMIT's values are the first of values.
// Where out is too short, or values are fewer than a COMMIT counts, nothing is written and the answer is 0.
pub fn write_message(
    m: Message,
    version: u8,
    sender: u8,
    session: u32,
    values: &[u64],
    out: &mut [u8],
) -> usize
    ensures { Wrote (written m version sender session values.now out.old) out.old result out.new }
{
    let h = header_for(m, version, sender, session);
    match m {
        Message::Send { value, .. } | Message::Echo { value, .. } | Message::Ready { value, .. } =>
            write_plain(h, value, out),
        Message::Est { value, .. } | Message::Aux { value, .. } | Message::Finish { value, .. } =>
            write_plain(h, u64::from(value), out),
        Message::Commit { .. } => write_counted(h, values, out),
    }
}
