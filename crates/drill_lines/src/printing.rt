// The bytes that the drill prints. Each function writes a text into the lent bytes from a place on, as far as they go,
// and answers the place after it.
ghost use Rattle.std.specs.Prelude.{take, if◌then◌else◌};
ghost use Rattle.drill_lines.specs.Text.{comma_text, values_text, number_text, result_line, sent_line, bad_line};
ghost use Rattle.text.specs.Paste.{Wrote};
ghost use Rattle.text.specs.Fields.{each_text};

use crate::SessionResult;

fn put_comma_hex(out: &mut [u8], at: usize, n: u64) -> usize
    ensures { Wrote (comma_text n) out.old at result out.new }
{
    let place = text::put_byte(out, at, b',');
    text::put_hex(out, place, n)
}

// A comma before each value.
fn put_comma_values(out: &mut [u8], at: usize, values: &[u64]) -> usize
    ensures { Wrote (each_text comma_text values.now) out.old at result out.new }
{
    let mut place = at;
    for value in values {
        place = put_comma_hex(out, place, *value);
    }
    place
}

fn put_values(out: &mut [u8], at: usize, values: &[u64]) -> usize
    ensures { Wrote (values_text values.now) out.old at result out.new }
{
    match values.split_first() {
        None => text::put_byte(out, at, b'-'),
        Some((first, rest)) => {
            let place = text::put_hex(out, at, *first);
            put_comma_values(out, place, rest)
        }
    }
}

// A decimal and the byte after it.
fn put_number(out: &mut [u8], at: usize, n: u64, after: u8) -> usize
    ensures { Wrote (number_text n after) out.old at result out.new }
{
    let place = text::put_decimal(out, at, n);
    text::put_byte(out, place, after)
}

// The line of an honest concentrator; its values in force are the first count of values, or all where there are fewer.
pub fn put_result(
    out: &mut [u8],
    at: usize,
    r: SessionResult,
    values: &[u64],
    count: usize,
) -> usize
    ensures { Wrote (result_line r.number r.exit r.closed r.turns (take count values.now)) out.old at result out.new }
{
    let second = put_number(out, at, r.number, b'\t');
    let third = put_number(out, second, r.exit, b'\t');
    let fourth = put_number(out, third, r.closed, b'\t');
    let fifth = put_number(out, fourth, r.turns, b'\t');
    let end = put_values(out, fifth, &values[..count.min(values.len())]);
    text::put_byte(out, end, b'\n')
}

// The line of the message count.
pub fn put_sent(out: &mut [u8], at: usize, count: u64) -> usize
    ensures { Wrote (sent_line count) out.old at result out.new }
{
    let place = text::put_text(out, at, b"sent\t");
    put_number(out, place, count, b'\n')
}

// The line of a line that cannot be taken.
pub fn put_bad(out: &mut [u8], at: usize, number: u64) -> usize
    ensures { Wrote (bad_line number) out.old at result out.new }
{
    let place = text::put_text(out, at, b"bad\t");
    put_number(out, place, number, b'\n')
}
