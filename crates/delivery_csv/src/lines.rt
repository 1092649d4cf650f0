// Reading drill lines byte by byte, and writing their records.
ghost use Rattle.std.specs.Prelude.{is_none, ◌+◌, ◌^◌, ◌<◌, true, [], ◌∷◌, ◌++◌, ◌≡◌, length, drop};
ghost use Rattle.text.specs.Paste.{Wrote};
ghost use Rattle.delivery_csv.specs.Records.{special};
ghost use Rattle.delivery_csv.specs.laws.LineReader.{field_ends, wraps_in, wraps_after, reading_line, parted_line, extended_line, fed_line, advanced_line, line_ends, quote_if, end_mark, line_shown, line_untouched, line_end_text, line_wraps, scanned_line, start_scan, judged_lines, written_lines};

use crate::scan::{Scan, spend};
use crate::{COMMA, CR, ConversionError, LF, LineReader, MAX_FIELD_BYTES, MAX_FIELDS, QUOTE, TAB};

// Whether a field with the byte needs quotes.
#[tactic(auto, unfolding(crate::specs::Records::special))]
fn special(byte: u8) -> bool
    ensures { result ≡ special byte }
{
    (byte == COMMA) | (byte == QUOTE)
}

// Whether a field is over at the byte.
#[tactic(auto, unfolding(crate::specs::laws::LineReader::field_ends))]
fn field_ends(byte: u8) -> bool
    ensures { result ≡ field_ends byte }
{
    (byte == TAB) | (byte == LF)
}

// Whether the field at the front of a text needs quotes.
#[tactic(auto, unfolding(crate::specs::laws::LineReader::wraps_in))]
fn wraps(text: &[u8]) -> bool
    ensures { result ≡ wraps_in text.now }
{
    text.iter()
        .take_while(|byte| !field_ends(**byte))
        .any(|byte| special(*byte))
}

// Whether the field that starts after the byte, at the front of the rest of the text, needs quotes, if one starts there.
#[tactic(auto, using(crate::specs::laws::LineCases::after_cases))]
fn wraps_after(byte: u8, rest: &[u8]) -> bool
    ensures { result ≡ wraps_after byte rest.now }
{
    field_ends(byte) && wraps(rest)
}

// A line that may still be taken.
#[tactic(auto, unfolding(crate::specs::laws::LineReader::reading_line))]
fn reading_line(fields: u8, length: u8, wraps: bool) -> Option<LineReader>
    ensures { result ≡ reading_line fields length wraps }
{
    Some(LineReader {
        fields,
        length,
        wraps,
    })
}

// A tab: the field is over, and another follows.
#[tactic(auto, using(crate::specs::laws::LineCases::parted_cases))]
fn parted_line(r: LineReader, wraps: bool) -> Option<LineReader>
    ensures { result ≡ parted_line r wraps }
{
    if u64::from(r.fields) + 1 < MAX_FIELDS {
        return reading_line(r.fields + 1, 0, wraps);
    }
    None
}

// One more byte of a field.
#[tactic(auto, using(crate::specs::laws::LineCases::extended_cases))]
fn extended_line(r: LineReader) -> Option<LineReader>
    ensures { result ≡ extended_line r }
{
    if r.length < MAX_FIELD_BYTES {
        return reading_line(r.fields, r.length + 1, r.wraps);
    }
    None
}

// Reads one more byte; `wraps` says whether a field that starts after it needs quotes.
#[tactic(auto, using(crate::specs::laws::LineCases::fed_cases))]
fn fed_line(r: LineReader, byte: u8, wraps: bool) -> Option<LineReader>
    ensures { result ≡ fed_line r byte wraps }
{
    match byte {
        LF => reading_line(0, 0, wraps),
        TAB => parted_line(r, wraps),
        CR => None,
        _ => extended_line(r),
    }
}

// A line that is not taken stays so.
#[tactic(auto, unfolding(crate::specs::laws::LineReader::advanced_line))]
fn advanced_line(reader: Option<LineReader>, byte: u8, wraps: bool) -> Option<LineReader>
    ensures { result ≡ advanced_line reader byte wraps }
{
    fed_line(reader?, byte, wraps)
}

// Whether the byte ends the line.
#[tactic(auto, unfolding(crate::specs::laws::LineReader::line_ends))]
fn line_ends(reader: Option<LineReader>, byte: u8) -> bool
    ensures { result ≡ line_ends reader byte }
{
    match reader {
        Some(_) => byte == LF,
        None => false,
    }
}

// Whether the field being read is written in quotes.
#[tactic(auto, unfolding(crate::specs::laws::LineReader::line_wraps))]
fn line_wraps(reader: Option<LineReader>) -> bool
    ensures { result ≡ line_wraps reader }
{
    match reader {
        Some(r) => r.wraps,
        None => false,
    }
}

// Whether nothing is read of a line that may still be taken.
#[tactic(auto, unfolding(crate::specs::laws::LineReader::line_untouched))]
fn untouched(reader: Option<LineReader>) -> bool
    ensures { result ≡ line_untouched reader }
{
    match reader {
        Some(r) => (r.fields == 0) & (r.length == 0),
        None => true,
    }
}

#[tactic(auto, using(crate::specs::laws::LineCases::quote_lengths))]
fn quote_length(wraps: bool) -> usize
    ensures { (result ≡ length (quote_if wraps)) × (result < 2) }
{
    if wraps { 1 } else { 0 }
}

#[tactic(auto, using(crate::specs::laws::LineCases::mark_lengths))]
fn mark_length(byte: u8) -> usize
    ensures { (result ≡ length (end_mark byte)) × (result < 3) }
{
    if byte == LF { 2 } else { 1 }
}

// How many bytes are written for a byte.
#[tactic(auto, using(crate::specs::laws::LineCases::shown_lengths))]
fn shown_length(wraps: bool, byte: u8, next: bool) -> usize
    ensures { result ≡ length (line_shown wraps byte next) }
{
    if field_ends(byte) {
        return quote_length(wraps) + mark_length(byte) + quote_length(next);
    }
    if byte == QUOTE { 2 } else { 1 }
}

// How many bytes are written at the end of the text.
#[tactic(auto, using(crate::specs::laws::LineCases::end_lengths))]
fn end_length(reader: Option<LineReader>) -> usize
    ensures { result ≡ length (line_end_text reader) }
{
    if untouched(reader) {
        return 0;
    }
    quote_length(line_wraps(reader)) + 2
}

// One more byte is judged.
#[tactic(auto, unfolding(crate::specs::laws::LineReader::scanned_line))]
fn scanned(x: Scan<LineReader>, byte: u8, next: bool) -> Scan<LineReader>
    requires { x.count + 1 < 2 ^ 64 }
    ensures { result ≡ scanned_line x byte next }
{
    let reader = x.reader;
    let written = shown_length(line_wraps(reader), byte, next);
    x.passed(
        advanced_line(reader, byte, next),
        line_ends(reader, byte),
        written,
    )
}

// Nothing is judged but the quote of the first field, if it has one.
#[tactic(auto, unfolding(crate::specs::laws::LineReader::start_scan))]
fn scan_start(all: usize, wraps: bool) -> Scan<LineReader>
    ensures { result ≡ start_scan all wraps }
{
    Scan {
        reader: reading_line(0, 0, wraps),
        count: 0,
        room: spend(Some(all), quote_length(wraps)),
    }
}

// The answer for a text and so many lent bytes.
// `judge` and `write` are those of records over again: only a line looks at the bytes behind, so a trait of both needs more than the loops.
pub fn judge(text: &[u8], all: usize) -> Result<usize, ConversionError>
    ensures { result ≡ judged_lines all text.now }
{
    let mut x = scan_start(all, wraps(text));
    for (k, &byte) in text.iter().enumerate() {
        x = scanned(x, byte, wraps_after(byte, &text[k + 1..]));
    }
    x.answer(all, x.reader.is_none(), end_length(x.reader))
}

fn put_quote_if(out: &mut [u8], at: usize, wraps: bool) -> usize
    ensures { Wrote (quote_if wraps) out.old at result out.new }
{
    if wraps {
        return text::put_byte(out, at, QUOTE);
    }
    at
}

fn put_both(out: &mut [u8], at: usize, first: u8, second: u8) -> usize
    ensures { Wrote (first ∷ second ∷ []) out.old at result out.new }
{
    let place = text::put_byte(out, at, first);
    text::put_byte(out, place, second)
}

fn put_mark(out: &mut [u8], at: usize, byte: u8) -> usize
    ensures { Wrote (end_mark byte) out.old at result out.new }
{
    if byte == LF {
        return put_both(out, at, CR, LF);
    }
    text::put_byte(out, at, COMMA)
}

// The end of a field, and the start of the one after it.
fn put_between(out: &mut [u8], at: usize, wraps: bool, byte: u8, next: bool) -> usize
    ensures { Wrote (quote_if wraps ++ (end_mark byte ++ quote_if next)) out.old at result out.new }
{
    let mark = put_quote_if(out, at, wraps);
    let place = put_mark(out, mark, byte);
    put_quote_if(out, place, next)
}

// What is written for a byte.
fn put_line_byte(out: &mut [u8], at: usize, wraps: bool, byte: u8, next: bool) -> usize
    ensures { Wrote (line_shown wraps byte next) out.old at result out.new }
{
    if field_ends(byte) {
        return put_between(out, at, wraps, byte, next);
    }
    if byte == QUOTE {
        return put_both(out, at, QUOTE, QUOTE);
    }
    text::put_byte(out, at, byte)
}

// What is written at the end of the text.
fn put_line_end(out: &mut [u8], at: usize, reader: Option<LineReader>) -> usize
    ensures { Wrote (line_end_text reader) out.old at result out.new }
{
    if untouched(reader) {
        return at;
    }
    let place = put_quote_if(out, at, line_wraps(reader));
    put_both(out, place, CR, LF)
}

// The records of the lines, as far as the lent bytes go. The answer is the place after them.
pub fn write(text: &[u8], out: &mut [u8]) -> usize
    ensures { Wrote (written_lines text.now) out.old 0 result out.new }
{
    let wraps = wraps(text);
    let mut reader = reading_line(0, 0, wraps);
    let mut at = put_quote_if(out, 0, wraps);
    for (k, &byte) in text.iter().enumerate() {
        let next = wraps_after(byte, &text[k + 1..]);
        at = put_line_byte(out, at, line_wraps(reader), byte, next);
        reader = advanced_line(reader, byte, next);
    }
    put_line_end(out, at, reader)
}
