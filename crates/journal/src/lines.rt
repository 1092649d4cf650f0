// The lines, written at the front of the lent bytes. Each function of a part writes from a place on, as far as the bytes go, and answers the
// place after it.
ghost use Rattle.text.specs.Paste.{Wrote};
ghost use Rattle.text.specs.Fields.{each_text};
ghost use Rattle.opening.specs.Arguments.{given};
ghost use Rattle.journal.specs.Lines.{opening_line, delivery_line, recording_line, turn_line};
ghost use Rattle.journal.specs.laws.Parts.{tab_decimal, tab_word, tab_pack, settings_part, input_part, lists_part};

use opening::Arguments;

const TAB: u8 = b'\t';

const LF: u8 = b'\n';

const LETTER_O: u8 = b'O';

const LETTER_D: u8 = b'D';

const LETTER_T: u8 = b'T';

const LETTER_K: u8 = b'K';

fn put_tab_decimal(out: &mut [u8], at: usize, n: u64) -> usize
    ensures { Wrote (tab_decimal n) out.old at result out.new }
{
    let place = text::put_byte(out, at, TAB);
    text::put_decimal(out, place, n)
}

fn put_tab_word(out: &mut [u8], at: usize, n: u32) -> usize
    ensures { Wrote (tab_word n) out.old at result out.new }
{
    let place = text::put_byte(out, at, TAB);
    text::put_word(out, place, n)
}

fn put_tab_pack(out: &mut [u8], at: usize, n: u64) -> usize
    ensures { Wrote (tab_pack n) out.old at result out.new }
{
    let place = text::put_byte(out, at, TAB);
    text::put_hex(out, place, n)
}

// One function of this and of `put_weights` would need a bound that says which text an item has; each is three lines.
fn put_coins(out: &mut [u8], at: usize, coins: &[u32]) -> usize
    ensures { Wrote (each_text tab_word coins.now) out.old at result out.new }
{
    let mut place = at;
    for &coin in coins {
        place = put_tab_word(out, place, coin);
    }
    place
}

fn put_tab_weight(out: &mut [u8], at: usize, x: u8) -> usize
    ensures { Wrote (tab_decimal x) out.old at result out.new }
{
    put_tab_decimal(out, at, u64::from(x))
}

fn put_weights(out: &mut [u8], at: usize, weights: &[u8]) -> usize
    ensures { Wrote (each_text tab_decimal weights.now) out.old at result out.new }
{
    let mut place = at;
    for &weight in weights {
        place = put_tab_weight(out, place, weight);
    }
    place
}

// The letter, the version, n, ta and ts.
fn put_settings(out: &mut [u8], a: Arguments<'_>) -> usize
    ensures { Wrote (settings_part a.entry.version a.entry.n a.entry.ta a.entry.ts) out.old 0 result out.new }
{
    let first = text::put_byte(out, 0, LETTER_O);
    let second = put_tab_decimal(out, first, a.version);
    let third = put_tab_decimal(out, second, a.n);
    let fourth = put_tab_decimal(out, third, a.ta);
    put_tab_decimal(out, fourth, a.ts)
}

// Own number, session and own input.
fn put_input(out: &mut [u8], at: usize, a: Arguments<'_>) -> usize
    ensures { Wrote (input_part a.entry.own a.entry.session a.entry.input) out.old at result out.new }
{
    let second = put_tab_decimal(out, at, a.own);
    let third = put_tab_decimal(out, second, a.session as u64);
    put_tab_pack(out, third, a.input)
}

// Coin words, weights, whether coins are boxed, and the end.
fn put_lists(out: &mut [u8], at: usize, a: Arguments<'_>) -> usize
    ensures { Wrote (lists_part a.entry.coins.now a.entry.weights.now a.entry.boxed) out.old at result out.new }
{
    let second = put_coins(out, at, a.coins);
    let third = put_weights(out, second, a.weights);
    let fourth = put_tab_decimal(out, third, a.boxed);
    text::put_byte(out, fourth, LF)
}

// The line of an opening.
pub fn put_opening(out: &mut [u8], a: Arguments<'_>) -> usize
    ensures { Wrote (opening_line (given a.entry)) out.old 0 result out.new }
{
    let second = put_settings(out, a);
    let third = put_input(out, second, a);
    put_lists(out, third, a)
}

// The line of a delivery.
pub fn put_delivery(out: &mut [u8], link: u64, bytes: &[u8]) -> usize
    ensures { Wrote (delivery_line link bytes.now) out.old 0 result out.new }
{
    let first = text::put_byte(out, 0, LETTER_D);
    let second = put_tab_decimal(out, first, link);
    let third = text::put_byte(out, second, TAB);
    let fourth = text::put_hex_bytes(out, third, bytes);
    text::put_byte(out, fourth, LF)
}

// The line of a turn.
pub fn put_turn(out: &mut [u8]) -> usize
    ensures { Wrote turn_line out.old 0 result out.new }
{
    let first = text::put_byte(out, 0, LETTER_T);
    text::put_byte(out, first, LF)
}

// The line of a recording.
pub fn put_recording(out: &mut [u8], vote: u64, round: u64, bit: u64) -> usize
    ensures { Wrote (recording_line vote round bit) out.old 0 result out.new }
{
    let first = text::put_byte(out, 0, LETTER_K);
    let second = put_tab_decimal(out, first, vote);
    let third = put_tab_decimal(out, second, round);
    let fourth = put_tab_decimal(out, third, bit);
    text::put_byte(out, fourth, LF)
}
