// The first line of a journal: the opening.
ghost use Rattle.std.specs.Prelude.{◌≡◌, ◌+◌, ◌≤◌, ◌<◌, length, get_or, take};
ghost use Rattle.restore.specs.Restoring.{opened_from, opening_from, opening_read, first_line};
ghost use Rattle.text.specs.Numbers.{value_of};
ghost use Rattle.restore.specs.Reading.{field_at, boxed_from};
ghost use Rattle.restore.specs.laws.Parts.{fields_at};
ghost use Rattle.restore.specs.laws.Numbers.{number_of};
ghost use Rattle.restore.specs.laws.Forms.{form_at, count_right, counted_from};
ghost use Rattle.restore.specs.laws.Filling.{Stored, FieldsRead};
ghost use Rattle.restore.specs.laws.Opened.{CoinsFit, Copied, Weighed, WeightsAsked, WeightsRead};
ghost use Rattle.restore.specs.laws.Applying.{Tried};
ghost use Rattle.restore.specs.laws.Given.{arguments_with, OpenGiven};
ghost use Rattle.restore.specs.laws.First.{CountGiven};

use crate::fields;
use opening::Arguments;

const WORD: u8 = 8;

const PACK: u8 = 16;

const LETTER_O: u8 = b'O';

// The form of field k, from 0, of n concentrators.
fn form_of(n: usize, k: usize) -> u8
    requires { n ≤ 16 }
    ensures { result ≡ form_at n k }
{
    if k < 6 {
        return text::DECIMAL;
    }
    if k == 6 {
        return PACK;
    }
    if k < 7 + n {
        return WORD;
    }
    text::DECIMAL
}

// Reads a field as a number into place k.
fn store_field(f: &[u8], form: u8, values: &mut [u64], k: usize) -> bool
    requires { k < length values.old }
    ensures { Stored form f.now values.old k result values.new }
{
    let Some(v) = fields::read_number(f, form) else {
        return false;
    };
    values[k] = v;
    true
}

// Reads all fields from a place on, and tells how many there are: those of an opening line of n concentrators, of which the first six are decimals.
pub fn read_all(line: &[u8], start: usize, n: usize, values: &mut [u64]) -> Option<usize>
    requires { (start ≤ length line.now) × (n ≤ 16) }
    ensures { FieldsRead n (fields_at line.now start) (length values.old) result values.new }
{
    let mut at = start;
    for k in 0..values.len() {
        let e = fields::field_end(line, at);
        if !store_field(&line[at..e], form_of(n, k), values, k) {
            return None;
        }
        if e == line.len() {
            return Some(k + 1);
        }
        at = e + 1;
    }
    None
}

// Copies n coin words.
fn copy_coins(values: &[u64], n: usize, coins: &mut [u32])
    requires { (7 + n ≤ length values.now) × (n ≤ length coins.old) × (n ≤ 16) × CoinsFit n values.now }
    ensures { Copied values.now 7 n (length coins.old) coins.new }
{
    for j in 0..n {
        coins[j] = values[7 + j] as u32;
    }
}

// Copies n weights from a base on, if each is a byte.
fn copy_weights(values: &[u64], base: usize, n: usize, weights: &mut [u8]) -> bool
    requires { (base + n ≤ length values.now) × (n ≤ length weights.old) }
    ensures { Weighed values.now base n (length weights.old) result weights.new }
{
    for j in 0..n {
        let w = values[base + j];
        if 255 < w {
            return false;
        }
        weights[j] = w as u8;
    }
    true
}

// The weights of a line with so many numbers, where all are 1 before: a line without them leaves them so.
fn read_weights(values: &[u64], n: usize, count: usize, weights: &mut [u8]) -> bool
    requires { WeightsAsked n count values.now weights.old }
    ensures { WeightsRead n (take count values.now) result weights.new }
{
    if count == 7 + n {
        return true;
    }
    copy_weights(values, 7 + n, n, weights)
}

// Whether coins are boxed, by so many numbers: the last one, and 0 in an older line without it.
fn read_boxed(values: &[u64], n: usize, count: usize) -> u64
    requires { (n ≤ 16) × (7 + n + n < length values.now) × (count ≤ length values.now) }
    ensures { result ≡ boxed_from n (take count values.now) }
{
    let place = 7 + n + n;
    if place < count {
        return values[place];
    }
    0
}

// Opens a session with the coin words, weights and kind of coins, and the other numbers of a line.
fn open_with(
    copy: &mut [u64],
    n: usize,
    values: &[u64],
    coins: &[u32],
    weights: &[u8],
    boxed: u64,
) -> bool
    requires { (7 ≤ length values.now) × (get_or values.now 5 0 < 4294967296) × (length copy.old ≡ 2048) }
    ensures { Tried (opened_from (arguments_with n values.now coins.now weights.now boxed)) copy.old result copy.new }
{
    let a = Arguments {
        version: values[0],
        n: n as u64,
        ta: values[2],
        ts: values[3],
        own: values[4],
        session: values[5] as u32,
        input: values[6],
        coins,
        weights,
        boxed,
    };
    opening::open(copy, a).is_ok()
}

// Opens a session with so many numbers of a line.
fn open_values(copy: &mut [u64], n: usize, count: usize, values: &[u64]) -> bool
    requires { OpenGiven n count values.now copy.old }
    ensures { Tried (opening_from n (take count values.now)) copy.old result copy.new }
{
    if 4294967295 < values[5] {
        return false;
    }
    let mut weights = [1u8; 16];
    if !read_weights(values, n, count, &mut weights) {
        return false;
    }
    let mut coins = [0u32; 16];
    copy_coins(values, n, &mut coins);
    let boxed = read_boxed(values, n, count);
    open_with(copy, n, values, &coins[..n], &weights[..n], boxed)
}

// Whether an opening line of n concentrators has so many numbers.
fn count_right(n: usize, count: usize) -> bool
    requires { n ≤ 16 }
    ensures { result ≡ count_right n count }
{
    (count == 7 + n) | (count == 7 + n + n) | (count == 7 + n + n + 1)
}

// Opens a session where there are as many numbers as n concentrators have.
fn open_counted(copy: &mut [u64], n: usize, count: usize, values: &[u64]) -> bool
    requires { CountGiven n count values.now copy.old }
    ensures { Tried (counted_from n (take count values.now)) copy.old result copy.new }
{
    if !count_right(n, count) {
        return false;
    }
    open_values(copy, n, count, values)
}

// Opens a session of n concentrators by the fields from a place on.
fn open_fields(copy: &mut [u64], line: &[u8], at: usize, n: u64) -> bool
    requires { (at ≤ length line.now) × (length copy.old ≡ 2048) }
    ensures { Tried (opening_read n (fields_at line.now at)) copy.old result copy.new }
{
    if 16 < n {
        return false;
    }
    let few = n as usize;
    let mut values = [0u64; 40];
    let Some(count) = read_all(line, at, few, &mut values) else {
        return false;
    };
    open_counted(copy, few, count, &values)
}

// The number in the second field from a place on: how many concentrators there are.
fn second_number(line: &[u8], at: usize) -> Option<u64>
    requires { at ≤ length line.now }
    ensures { result ≡ number_of 10 (field_at (fields_at line.now at) 1) }
{
    let e = fields::field_end(line, at);
    if e == line.len() {
        return None;
    }
    let start = e + 1;
    let g = fields::field_end(line, start);
    fields::read_number(&line[start..g], text::DECIMAL)
}

// Opens a session of as many concentrators as the second field says.
fn open_by(copy: &mut [u64], line: &[u8], at: usize) -> bool
    requires { (at ≤ length line.now) × (length copy.old ≡ 2048) }
    ensures { Tried (opening_read (value_of 10 (field_at (fields_at line.now at) 1)) (fields_at line.now at)) copy.old result copy.new }
{
    let Some(n) = second_number(line, at) else {
        return false;
    };
    open_fields(copy, line, at, n)
}

// Applies the first line.
pub fn open_line(copy: &mut [u64], line: &[u8]) -> bool
    requires { length copy.old ≡ 2048 }
    ensures { Tried (first_line line.now) copy.old result copy.new }
{
    let e = fields::field_end(line, 0);
    let c = fields::letter(&line[..e]);
    if c != LETTER_O {
        return false;
    }
    if e == line.len() {
        return false;
    }
    open_by(copy, line, e + 1)
}
