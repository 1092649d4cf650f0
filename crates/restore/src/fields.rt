// The fields of a line: their places, and what they say.
ghost use Rattle.std.specs.Prelude.{◌≡◌, ◌≤◌, ◌<◌, length};
ghost use Rattle.text.specs.Fields.{letter};
ghost use Rattle.restore.specs.Reading.{zero_led};
ghost use Rattle.restore.specs.laws.Parts.{Field};
ghost use Rattle.restore.specs.laws.Numbers.{digits_from, number_of};
ghost use Rattle.restore.specs.laws.Hex.{byte_of, HexRead};

use crate::reader::place_of;

const TAB: u8 = b'\t';

// Where the field at a place ends.
pub fn field_end(b: &[u8], at: usize) -> usize
    requires { at ≤ length b.now }
    ensures { Field b.now at result }
{
    place_of(b, at, TAB)
}

// The one byte of a field that has one, else 0.
pub fn letter(f: &[u8]) -> u8
    ensures { result ≡ letter f.now }
{
    if f.len() == 1 {
        return f[0];
    }
    0
}

// Whether a field of more than one digit starts with 0.
fn zero_led(f: &[u8]) -> bool
    ensures { result ≡ zero_led f.now }
{
    1 < f.len() && f[0] == b'0'
}

// The number of digits to a base.
fn digits_value(f: &[u8], base: u8) -> Option<u64>
    requires { 0 < base }
    ensures { result ≡ digits_from base 0 f.now }
{
    let mut v: u64 = 0;
    for c in f {
        let d = text::digit(*c);
        if base <= d {
            return None;
        }
        if !text::fits(v, base, d) {
            return None;
        }
        v = text::appended(v, base, d);
    }
    Some(v)
}

// The number of a field of a form: 10 for a decimal, else how many hexadecimal digits.
pub fn read_number(f: &[u8], form: u8) -> Option<u64>
    ensures { result ≡ number_of form f.now }
{
    if !text::complete(form, f.len()) {
        return None;
    }
    if (form == text::DECIMAL) & zero_led(f) {
        return None;
    }
    digits_value(f, text::base(form))
}

const NO_BYTE: u64 = 256;

// The byte of two digits, and 256 where one is none.
fn byte_of(a: u8, b: u8) -> u64
    ensures { result ≡ byte_of a b }
{
    let d = text::digit(a);
    if 16 <= d {
        return NO_BYTE;
    }
    let e = text::digit(b);
    if 16 <= e {
        return NO_BYTE;
    }
    16 * d as u64 + e as u64
}

// Reads the bytes of a field of hexadecimal digits, where there is room for all of them: how many.
pub fn read_bytes(f: &[u8], out: &mut [u8]) -> Option<usize>
    ensures { HexRead f.now (length out.old) result out.new }
{
    let count = f.len() / 2;
    for k in 0..count {
        let x = byte_of(f[2 * k], f[2 * k + 1]);
        if 255 < x {
            return None;
        }
        if out.len() <= k {
            return None;
        }
        out[k] = x as u8;
    }
    if 2 * count < f.len() {
        return None;
    }
    Some(count)
}
