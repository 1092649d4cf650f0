// Delivery lists: RFC 4180 records as drill lines, field by field, and back.
#![tactic(auto)]

mod direction;
mod lines;
mod parts;
mod records;
mod scan;
mod stream;

ghost use Rattle.std.specs.Prelude.{◌≡◌, length};
ghost use Rattle.delivery_csv.specs.Converting.{drill_of_csv, csv_of_drill, conversion, bytes_after};
ghost use Rattle.delivery_csv.specs.Back.{ThereAndBack};
ghost use Rattle.delivery_csv.specs.Grammar.{GrammarRead};
ghost use Rattle.delivery_csv.specs.Blocks.{BlockByBlock};
ghost use Rattle.delivery_csv.specs.Parts.{PartsEnded};
ghost use Rattle.delivery_csv.specs.Stream.{Streamed};

pub use direction::{Direction, ToCsv, ToDrill};
pub use parts::{Part, ended_part};
pub use stream::{Progress, Stop, convert_ended, convert_rest};

pub const TAB: u8 = b'\t';

pub const LF: u8 = b'\n';

pub const CR: u8 = b'\r';

pub const QUOTE: u8 = b'"';

pub const COMMA: u8 = b',';

// The most fields of a record.
pub const MAX_FIELDS: u64 = 16;

// The most bytes of a field.
pub const MAX_FIELD_BYTES: u8 = 64;

// Why a text is not converted.
#[derive(Clone, Copy, Debug, PartialEq, Eq)]
pub enum ConversionError {
    // The number, from 1, of the first record or line that cannot be taken.
    Record(u64),
    // The lent bytes are too few.
    Short,
}

// Where in a record the next byte stands.
#[derive(Clone, Copy)]
pub enum Phase {
    // At the start of a field.
    Start,
    // In a field without quotes, after its first byte.
    Plain,
    // Within quotes.
    Quoted,
    // After a quote within quotes: it closes the field, or the next byte is its double.
    Closing,
    // After a CR outside quotes, which only an LF may follow.
    Return,
}

// A record of which some bytes are read.
#[derive(Clone, Copy)]
pub struct RecordReader {
    pub phase: Phase,
    // How many fields are over.
    pub fields: u8,
    // The bytes of the field being read, quotes undone.
    pub length: u8,
}

// A line of which some bytes are read.
#[derive(Clone, Copy)]
pub struct LineReader {
    // How many fields are over.
    pub fields: u8,
    // The bytes of the field being read.
    pub length: u8,
    // Whether that field is written in quotes.
    pub wraps: bool,
}

// Turns records into drill lines, and answers how many bytes were written. A refusal leaves the lent bytes.
pub fn csv_to_drill(text: &[u8], out: &mut [u8]) -> Result<usize, ConversionError>
    ensures answer { result ≡ conversion (drill_of_csv text.now) (length out.old) }
    ensures bytes { out.new ≡ bytes_after (drill_of_csv text.now) out.old }
{
    let written = records::judge(text, out.len())?;
    records::write(text, out);
    Ok(written)
}

// Turns drill lines into records, and answers how many bytes were written. A refusal leaves the lent bytes.
pub fn drill_to_csv(text: &[u8], out: &mut [u8]) -> Result<usize, ConversionError>
    ensures answer { result ≡ conversion (csv_of_drill text.now) (length out.old) }
    ensures bytes { out.new ≡ bytes_after (csv_of_drill text.now) out.old }
{
    let written = lines::judge(text, out.len())?;
    lines::write(text, out);
    Ok(written)
}

// What one conversion writes the other takes, and turns to the same lines or to the same fields.
pub fn there_and_back()
    ensures { ThereAndBack }
{}

// A text by the grammar of RFC 4180, with any choice of quotes and ends, is read as what was written, and no other text is taken.
pub fn grammar_read()
    ensures { GrammarRead }
{}

// Complete blocks of a text, converted one after the other, give what the whole text gives.
pub fn block_by_block()
    ensures { BlockByBlock }
{}

// An ended part is a complete block with as many records as it counts, no end is left out, and a rest of 4,096 bytes without an end is
// not taken, whatever follows it.
pub fn parts_ended()
    ensures { PartsEnded }
{}

// An input that is converted as it comes gives what it gives as a whole, however it is cut.
pub fn streamed()
    ensures { Streamed }
{}
