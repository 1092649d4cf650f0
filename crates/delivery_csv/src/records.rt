// Reading records byte by byte, and writing their drill lines.
ghost use Rattle.std.specs.Prelude.{true, ◌≡◌, ◌+◌, ◌<◌, ◌^◌, length};
ghost use Rattle.text.specs.Paste.{Wrote};
ghost use Rattle.delivery_csv.specs.Converting.{drill_of_csv, conversion};
ghost use Rattle.delivery_csv.specs.laws.RecordReader.{reading, start, extended, parted, plain_fed, quoted_fed, closing_fed, fed_in, within, ends, advanced, plain_shown, shown_in, shown, shown_text, untouched, broken, end_text, scanned, emitted};

use crate::scan::Scan;
use crate::{
    COMMA, CR, ConversionError, LF, MAX_FIELD_BYTES, MAX_FIELDS, Phase, QUOTE, RecordReader, TAB,
};

// A record that may still be taken.
#[tactic(auto, unfolding(crate::specs::laws::RecordReader::reading))]
fn reading(phase: Phase, fields: u8, length: u8) -> Option<RecordReader>
    ensures { result ≡ reading phase fields length }
{
    Some(RecordReader {
        phase,
        fields,
        length,
    })
}

#[tactic(auto, unfolding(crate::specs::laws::RecordReader::start))]
fn start() -> Option<RecordReader>
    ensures { result ≡ start }
{
    reading(Phase::Start, 0, 0)
}

// One more byte of a field.
#[tactic(auto, using(crate::specs::laws::RecordCases::extending))]
fn extended(r: RecordReader, phase: Phase) -> Option<RecordReader>
    ensures { result ≡ extended r phase }
{
    if r.length < MAX_FIELD_BYTES {
        return reading(phase, r.fields, r.length + 1);
    }
    None
}

// A comma that ends a field.
#[tactic(auto, using(crate::specs::laws::RecordCases::parting))]
fn parted(r: RecordReader) -> Option<RecordReader>
    ensures { result ≡ parted r }
{
    if u64::from(r.fields) + 1 < MAX_FIELDS {
        return reading(Phase::Start, r.fields + 1, 0);
    }
    None
}

// A byte outside quotes.
#[tactic(auto, using(crate::specs::laws::RecordCases::plain_cases))]
fn plain_fed(r: RecordReader, byte: u8) -> Option<RecordReader>
    ensures { result ≡ plain_fed r byte }
{
    match byte {
        COMMA => parted(r),
        CR => reading(Phase::Return, r.fields, r.length),
        TAB => None,
        _ => extended(r, Phase::Plain),
    }
}

// A byte within quotes.
#[tactic(auto, using(crate::specs::laws::RecordCases::quoted_cases))]
fn quoted_fed(r: RecordReader, byte: u8) -> Option<RecordReader>
    ensures { result ≡ quoted_fed r byte }
{
    match byte {
        QUOTE => reading(Phase::Closing, r.fields, r.length),
        TAB | CR | LF => None,
        _ => extended(r, Phase::Quoted),
    }
}

// A byte after a quote within quotes.
#[tactic(auto, using(crate::specs::laws::RecordCases::closing_cases))]
fn closing_fed(r: RecordReader, byte: u8) -> Option<RecordReader>
    ensures { result ≡ closing_fed r byte }
{
    match byte {
        QUOTE => extended(r, Phase::Quoted),
        COMMA => parted(r),
        CR => reading(Phase::Return, r.fields, r.length),
        _ => None,
    }
}

// Reads one more byte of a record. With `advanced` it is compiled into the two walks over a text: as a call it costs as much as the rest of
// what a byte takes.
#[tactic(auto, using(crate::specs::laws::RecordCases::fed_cases))]
#[inline(always)]
fn fed(r: RecordReader, byte: u8) -> Option<RecordReader>
    ensures { result ≡ fed_in r.phase r byte }
{
    match r.phase {
        Phase::Start => if byte == QUOTE {
            reading(Phase::Quoted, r.fields, 0)
        } else {
            plain_fed(r, byte)
        },
        Phase::Plain => if byte == QUOTE {
            None
        } else {
            plain_fed(r, byte)
        },
        Phase::Quoted => quoted_fed(r, byte),
        Phase::Closing => closing_fed(r, byte),
        Phase::Return => None,
    }
}

#[tactic(auto, unfolding(crate::specs::laws::RecordReader::within))]
fn within(phase: Phase) -> bool
    ensures { result ≡ within phase }
{
    matches!(phase, Phase::Quoted)
}

// Whether the byte ends the record.
#[tactic(auto, unfolding(crate::specs::laws::RecordReader::ends))]
fn ends(reader: Option<RecordReader>, byte: u8) -> bool
    ensures { result ≡ ends reader byte }
{
    match reader {
        Some(r) => (byte == LF) & !within(r.phase),
        None => false,
    }
}

// Reads one more byte of a text.
#[tactic(auto, unfolding(crate::specs::laws::RecordReader::advanced, crate::specs::laws::RecordReader::ends, crate::specs::laws::RecordReader::fed))]
#[inline(always)]
fn advanced(reader: Option<RecordReader>, byte: u8) -> Option<RecordReader>
    ensures { result ≡ advanced reader byte }
{
    let r = reader?;
    if (byte == LF) & !within(r.phase) {
        return start();
    }
    fed(r, byte)
}

// What a byte outside quotes puts into the line.
#[tactic(auto, using(crate::specs::laws::RecordCases::plain_shows))]
fn plain_shown(byte: u8) -> Option<u8>
    ensures { result ≡ plain_shown byte }
{
    match byte {
        COMMA => Some(TAB),
        CR => None,
        _ => Some(byte),
    }
}

// A quote that opens or may close puts nothing there.
#[tactic(auto, using(crate::specs::laws::RecordCases::shows))]
fn shown_in(phase: Phase, byte: u8) -> Option<u8>
    ensures { result ≡ shown_in phase byte }
{
    match phase {
        Phase::Start => if byte == QUOTE {
            None
        } else {
            plain_shown(byte)
        },
        Phase::Quoted => if byte == QUOTE { None } else { Some(byte) },
        Phase::Plain | Phase::Closing | Phase::Return => plain_shown(byte),
    }
}

// What a byte puts into the line.
#[tactic(auto, unfolding(crate::specs::laws::RecordReader::shown))]
fn shown(reader: Option<RecordReader>, byte: u8) -> Option<u8>
    ensures { result ≡ shown reader byte }
{
    shown_in(reader?.phase, byte)
}

#[tactic(auto, unfolding(crate::specs::laws::RecordReader::shown_text))]
fn shown_length(x: Option<u8>) -> usize
    ensures { result ≡ length (shown_text x) }
{
    x.is_some() as usize
}

fn put_shown(out: &mut [u8], at: usize, x: Option<u8>) -> usize
    ensures { Wrote (shown_text x) out.old at result out.new }
{
    match x {
        None => at,
        Some(b) => text::put_byte(out, at, b),
    }
}

// Whether nothing is read of a record that may still be taken.
#[tactic(auto, unfolding(crate::specs::laws::RecordReader::untouched, crate::specs::laws::RecordReader::untouched_in))]
fn untouched(reader: Option<RecordReader>) -> bool
    ensures { result ≡ untouched reader }
{
    match reader {
        Some(r) => matches!(r.phase, Phase::Start) & (r.fields == 0),
        None => true,
    }
}

// Whether a record that ends with the text cannot be taken.
#[tactic(auto, unfolding(crate::specs::laws::RecordReader::broken, crate::specs::laws::RecordReader::broken_in))]
fn broken(reader: Option<RecordReader>) -> bool
    ensures { result ≡ broken reader }
{
    match reader {
        Some(r) => matches!(r.phase, Phase::Quoted | Phase::Return),
        None => true,
    }
}

// How many bytes are written at the end of the text.
#[tactic(auto, using(crate::specs::laws::RecordWriting::end_lengths))]
fn end_length(reader: Option<RecordReader>) -> usize
    ensures { result ≡ length (end_text reader) }
{
    if untouched(reader) { 0 } else { 1 }
}

// Judges one more byte.
#[tactic(auto, unfolding(crate::specs::laws::RecordReader::scanned))]
fn scanned(x: Scan<RecordReader>, byte: u8) -> Scan<RecordReader>
    requires { x.count + 1 < 2 ^ 64 }
    ensures { result ≡ scanned x byte }
{
    let reader = x.reader;
    x.passed(
        advanced(reader, byte),
        ends(reader, byte),
        shown_length(shown(reader, byte)),
    )
}

// What the lines of a text come to in so many lent bytes.
pub fn judge(text: &[u8], all: usize) -> Result<usize, ConversionError>
    ensures { result ≡ conversion (drill_of_csv text.now) all }
{
    let mut x = Scan {
        reader: start(),
        count: 0,
        room: Some(all),
    };
    for &byte in text {
        x = scanned(x, byte);
    }
    x.answer(all, broken(x.reader), end_length(x.reader))
}

// What is written at the end of the text.
fn put_end(out: &mut [u8], at: usize, reader: Option<RecordReader>) -> usize
    ensures { Wrote (end_text reader) out.old at result out.new }
{
    if untouched(reader) {
        return at;
    }
    text::put_byte(out, at, LF)
}

// The lines of the records, as far as the lent bytes go. The answer is the place after them.
pub fn write(text: &[u8], out: &mut [u8]) -> usize
    ensures { Wrote (emitted start text.now) out.old 0 result out.new }
{
    let mut reader = start();
    let mut at: usize = 0;
    for &byte in text {
        at = put_shown(out, at, shown(reader, byte));
        reader = advanced(reader, byte);
    }
    put_end(out, at, reader)
}
