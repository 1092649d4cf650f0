// Text written into lent bytes. Each function writes from a place on, as far as the bytes go, and answers the place after it.
ghost use Rattle.std.specs.Prelude.{[], ◌∷◌, ◌+◌, ◌*◌, ◌<◌, ◌≤◌, length, leb, ◌≡◌, ◌^◌};
ghost use Rattle.text.specs.Numbers.{decimal_text, hex_text, word_text, byte_text};
ghost use Rattle.io.specs.Digits.{hex_digit_ascii, last_digits};
ghost use Rattle.text.specs.Paste.{Wrote};
ghost use Rattle.text.specs.Fields.{each_text};

pub fn put_byte(out: &mut [u8], at: usize, byte: u8) -> usize
    ensures { Wrote (byte ∷ []) out.old at result out.new }
{
    if out.len() <= at {
        return at;
    }
    out[at] = byte;
    at + 1
}

pub fn put_text(out: &mut [u8], at: usize, text: &[u8]) -> usize
    ensures { Wrote text.now out.old at result out.new }
{
    let mut place = at;
    for &byte in text {
        place = put_byte(out, place, byte);
    }
    place
}

// The digits of a number of any size.
fn put_digits(out: &mut [u8], at: usize, n: u64) -> usize
    ensures { Wrote (decimal_text n) out.old at result out.new }
{
    let mut text = [0u8; 20];
    let k = io::decimal(n, &mut text);
    put_text(out, at, &text[..k])
}

// Most numbers have one digit or two, which are written at once.
pub fn put_decimal(out: &mut [u8], at: usize, n: u64) -> usize
    ensures { Wrote (decimal_text n) out.old at result out.new }
{
    if n < 10 {
        return put_byte(out, at, 48 + n as u8);
    }
    if n < 100 {
        let place = put_byte(out, at, 48 + (n / 10) as u8);
        return put_byte(out, place, 48 + (n % 10) as u8);
    }
    put_digits(out, at, n)
}

// A number in so many hexadecimal digits, which hold it.
fn put_width(out: &mut [u8], at: usize, n: u64, width: usize) -> usize
    requires width { (0 < width) × (width ≤ 16) }
    requires held { n < 16 ^ width }
    ensures { Wrote (last_digits 16 width n) out.old at result out.new }
{
    let mut text = [0u8; 16];
    let k = io::hex(n, width, &mut text);
    put_text(out, at, &text[..k])
}

#[tactic(auto, unfolding(crate::specs::Numbers::hex_text))]
pub fn put_hex(out: &mut [u8], at: usize, n: u64) -> usize
    ensures { Wrote (hex_text n) out.old at result out.new }
{
    put_width(out, at, n, 16)
}

#[tactic(auto, unfolding(crate::specs::Numbers::word_text))]
pub fn put_word(out: &mut [u8], at: usize, n: u32) -> usize
    ensures { Wrote (word_text n) out.old at result out.new }
{
    put_width(out, at, u64::from(n), 8)
}

// The character of a digit below 16.
fn character(digit: u8) -> u8
    requires { digit < 16 }
    ensures { result ≡ hex_digit_ascii digit }
{
    if digit < 10 { 48 + digit } else { 87 + digit }
}

// A byte as two hexadecimal digits, for which there is room.
fn set_hex_byte(out: &mut [u8], at: usize, byte: u8)
    requires { at + 1 < length out.old }
    ensures { Wrote (byte_text byte) out.old at (at + 2) out.new }
{
    out[at] = character(byte / 16);
    out[at + 1] = character(byte % 16);
}

// Bytes, for which there is room: nothing is asked for each.
fn set_hex_bytes(out: &mut [u8], at: usize, bytes: &[u8])
    requires { at + 2 * length bytes.now ≤ length out.old }
    ensures { Wrote (each_text byte_text bytes.now) out.old at (at + 2 * length bytes.now) out.new }
{
    for (k, &byte) in bytes.iter().enumerate() {
        set_hex_byte(out, at + 2 * k, byte);
    }
}

fn put_hex_byte(out: &mut [u8], at: usize, byte: u8) -> usize
    ensures { Wrote (byte_text byte) out.old at result out.new }
{
    let place = put_byte(out, at, character(byte / 16));
    put_byte(out, place, character(byte % 16))
}

// Bytes as far as the lent ones go.
fn put_hex_front(out: &mut [u8], at: usize, bytes: &[u8]) -> usize
    ensures { Wrote (each_text byte_text bytes.now) out.old at result out.new }
{
    let mut place = at;
    for &byte in bytes {
        place = put_hex_byte(out, place, byte);
    }
    place
}

// Whether two digits for each byte fit from a place on.
fn hex_fits(room: usize, at: usize, count: usize) -> bool
    ensures { result ≡ leb (at + 2 * count) room }
{
    if room < at {
        return false;
    }
    count <= (room - at) / 2
}

pub fn put_hex_bytes(out: &mut [u8], at: usize, bytes: &[u8]) -> usize
    ensures { Wrote (each_text byte_text bytes.now) out.old at result out.new }
{
    if hex_fits(out.len(), at, bytes.len()) {
        set_hex_bytes(out, at, bytes);
        return at + 2 * bytes.len();
    }
    put_hex_front(out, at, bytes)
}
