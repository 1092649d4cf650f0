// The six calls of a concentrator's own program, which is written in C, the two of the coin box, the one of the calendar and the two that
// convert delivery lists. Each answers one number: specs/Answers.antt, Restored.antt, Replies.antt, Starts.antt and Conversions.antt have
// its bits.
#![tactic(auto)]

ghost use Rattle.std.specs.Prelude.{◌≡◌, ◌<◌, ◌≤◌, length, ltb, cond};
ghost use Rattle.journal.specs.Journal.{open_entry, opened_words, opened_bytes, deliver_entry, delivered_words, delivered_bytes, record_entry, record_words, record_bytes, turn_room, turned_message, turned_line};
ghost use Rattle.opening.specs.Given.{weights_word};
ghost use Rattle.opening.specs.Arguments.{arguments};
ghost use Rattle.calendar.specs.Calendar.{start_of};
ghost use Rattle.delivery_csv.specs.Converting.{drill_of_csv, csv_of_drill, conversion, bytes_after};
ghost use Rattle.coin_box.specs.Box.{box_open_answer, box_opened, request_reply, request_words};
ghost use Rattle.report.specs.Report.{report_answer, report_named, report_in_force};
ghost use Rattle.restore.specs.Restoring.{restore_answer, restored_words, restored_bytes};
ghost use Rattle.turn.specs.Turn.{sent_length, turn_outcome, turn_words};
ghost use Rattle.cabi.specs.Answers.{taken_number, entry_number, outcome_number, figures_number, report_number};
ghost use Rattle.cabi.specs.Restored.{restored_number};
ghost use Rattle.cabi.specs.Replies.{bit_value, reply_number};
ghost use Rattle.cabi.specs.Starts.{start_number};
ghost use Rattle.cabi.specs.Conversions.{conversion_number};
ghost use Rattle.cabi.specs.laws.Cases.{line_length, message_length};
ghost use Rattle.cabi.specs.laws.Starts.{minute_of};

use delivery_csv::ConversionError;
use opening::Arguments;
use report::Figures;
use restore::{RestoreError, Restored};
use settings::Refusal;
use turn::Outcome;

// What the part of an answer is multiplied by that starts at bit 8, ..
const BIT_8: u64 = 256;

// .. at bit 16, ..
const BIT_16: u64 = 65536;

// .. at bit 24, ..
const BIT_24: u64 = 16777216;

// .. at bit 32.
const BIT_32: u64 = 4294967296;

// A number in bits 8 to 63 is cut to those 56 bits.
const BIT_56: u64 = 72057594037927936;

// A turn's outcome in bits 8 to 15; idle is 0.
const SENT: u64 = 256;

const MOVED_OUT: u64 = 512;

const IN_FORCE: u64 = 768;

// In bits 8 to 15: the coin box told a bit.
const TOLD: u64 = 256;

fn entry_number(e: Result<u64, Refusal>) -> u64
    requires { line_length e ≤ 512 }
    ensures { result ≡ entry_number e }
{
    match e {
        Err(k) => u64::from(k),
        Ok(l) => BIT_16 * l,
    }
}

// Opens a session in the lent words; its line of the journal stands at the front of the last lent bytes. C gives the arguments one by one.
pub fn pack_open(
    state: &mut [u64],
    version: u64,
    n: u64,
    ta: u64,
    ts: u64,
    own: u64,
    session: u32,
    input: u64,
    coins: &[u32],
    weights: &[u8],
    boxed: u64,
    line: &mut [u8],
) -> u64
    ensures answer { result ≡ entry_number (open_entry (length state.old) (arguments version n ta ts own session input coins.now weights.now boxed) (length line.old)) }
    ensures words { state.new ≡ opened_words state.old (arguments version n ta ts own session input coins.now weights.now boxed) (length line.old) }
    ensures bytes { line.new ≡ opened_bytes (length state.old) (arguments version n ta ts own session input coins.now weights.now boxed) line.old }
{
    let a = Arguments {
        version,
        n,
        ta,
        ts,
        own,
        session,
        input,
        coins,
        weights,
        boxed,
    };
    entry_number(journal::open(state, a, line))
}

// Delivers a message that came over the link of a concentrator; its line stands at the front of the last lent bytes.
pub fn pack_deliver(state: &mut [u64], link: u64, message: &[u8], line: &mut [u8]) -> u64
    ensures answer { result ≡ entry_number (deliver_entry state.old link message.now (length line.old)) }
    ensures words { state.new ≡ delivered_words state.old link message.now (length line.old) }
    ensures bytes { line.new ≡ delivered_bytes state.old link message.now line.old }
{
    entry_number(journal::deliver(state, link, message, line))
}

// Records a bit of the coin box; its line stands at the front of the last lent bytes.
pub fn pack_record(state: &mut [u64], vote: u64, round: u64, bit: u64, line: &mut [u8]) -> u64
    ensures answer { result ≡ entry_number (record_entry state.old vote round bit (length line.old)) }
    ensures words { state.new ≡ record_words state.old vote round bit (length line.old) }
    ensures bytes { line.new ≡ record_bytes state.old vote round bit line.old }
{
    entry_number(journal::record(state, vote, round, bit, line))
}

fn outcome_number(o: Result<Outcome, Refusal>) -> u64
    requires { sent_length o ≤ 140 }
    ensures { result ≡ outcome_number o }
{
    match o {
        Err(k) => u64::from(k),
        Ok(outcome) => match outcome {
            Outcome::Idle => 0,
            Outcome::Sent(m) => SENT + BIT_16 * wire::message_length(m) as u64,
            Outcome::MovedOut => MOVED_OUT,
            Outcome::InForce => IN_FORCE,
        },
    }
}

// Takes a turn: a message that is sent stands at the front of the lent bytes, its line at the front of the last ones.
pub fn pack_turn(state: &mut [u64], message: &mut [u8], line: &mut [u8]) -> u64
    ensures answer { result ≡ outcome_number (turn_outcome state.old (turn_room (length message.old) (length line.old))) }
    ensures words { state.new ≡ turn_words state.old (turn_room (length message.old) (length line.old)) }
    ensures bytes { message.new ≡ turned_message state.old message.old (length line.old) }
    ensures line_bytes { line.new ≡ turned_line state.old (length message.old) line.old }
{
    outcome_number(journal::turn(state, message, line))
}

fn figures_number(f: Figures) -> u64
    requires { f.turns < 4294967296 }
    ensures { result ≡ figures_number f }
{
    BIT_8 * f.exit as u64 + BIT_16 * f.named as u64 + BIT_24 * f.in_force as u64 + BIT_32 * f.turns
}

// Reports on a state: the sets stand at the front of the lent words.
pub fn pack_report(state: &[u64], named: &mut [u64], in_force: &mut [u64]) -> u64
    ensures answer { result ≡ report_number (report_answer state.now (length named.old) (length in_force.old)) }
    ensures named_words { named.new ≡ report_named state.now named.old (length in_force.old) }
    ensures in_force_words { in_force.new ≡ report_in_force state.now (length named.old) in_force.old }
{
    match report::report(state, named, in_force) {
        Err(k) => u64::from(k),
        Ok(f) => figures_number(f),
    }
}

// 1 where a message is given again.
fn given_again(length: u64) -> u64
    ensures { result ≡ cond (ltb 0 length) 1 0 }
{
    if 0 < length { 1 } else { 0 }
}

fn restored_number(a: Result<Restored, RestoreError>) -> u64
    requires { message_length a ≤ 140 }
    ensures { result ≡ restored_number a }
{
    match a {
        Err(error) => match error {
            RestoreError::Lent(k) => u64::from(k),
            RestoreError::Line(line) => u64::from(Refusal::Journal) + BIT_8 * (line % BIT_56),
        },
        Ok(r) => {
            BIT_8 * given_again(r.message) + BIT_16 * r.message + BIT_32 * (r.bytes % BIT_32)
        }
    }
}

// Restores a state from its journal; the message of the last line, if it sent one, stands at the front of the lent bytes.
pub fn pack_restore(state: &mut [u64], journal: &[u8], message: &mut [u8]) -> u64
    ensures answer { result ≡ restored_number (restore_answer state.old journal.now (length message.old)) }
    ensures words { state.new ≡ restored_words state.old journal.now (length message.old) }
    ensures bytes { message.new ≡ restored_bytes (length state.old) journal.now message.old }
{
    restored_number(restore::restore(state, journal, message))
}

fn taken_number(taken: Result<(), Refusal>) -> u64
    ensures { result ≡ taken_number taken }
{
    match taken {
        Err(k) => u64::from(k),
        Ok(()) => 0,
    }
}

// Opens a coin box in the lent words.
pub fn pack_box_open(
    words: &mut [u64],
    n: u64,
    ta: u64,
    ts: u64,
    coins: &[u32],
    weights: &[u8],
) -> u64
    ensures answer { result ≡ taken_number (box_open_answer (length words.old) n ta ts (weights_word n weights.now) (length coins.now)) }
    ensures words { words.new ≡ box_opened words.old n ta ts (weights_word n weights.now) coins.now }
{
    taken_number(coin_box::open(words, n, ta, ts, coins, weights))
}

fn bit_value(b: bool) -> u64
    ensures { result ≡ bit_value b }
{
    u64::from(b)
}

fn reply_number(x: Result<Option<bool>, Refusal>) -> u64
    ensures { result ≡ reply_number x }
{
    match x {
        Err(k) => u64::from(k),
        Ok(bit) => match bit {
            None => 0,
            Some(b) => TOLD + BIT_16 * bit_value(b),
        },
    }
}

// Asks the coin box for the coin of a vote in a round.
pub fn pack_box_request(words: &mut [u64], requester: u64, vote: u64, round: u64) -> u64
    ensures answer { result ≡ reply_number (request_reply words.old requester vote round) }
    ensures words { words.new ≡ request_words words.old requester vote round }
{
    reply_number(coin_box::request(words, requester, vote, round))
}

fn start_number(x: Result<u64, Refusal>) -> u64
    requires { minute_of x < 4294967296 }
    ensures { result ≡ start_number x }
{
    match x {
        Err(k) => u64::from(k),
        Ok(m) => BIT_32 * m,
    }
}

// Names the minute from which a set is in force: the first in a window, not before the closing minute and the lead together.
pub fn pack_start_minute(windows: &[u32], closing: u64, lead: u64) -> u64
    ensures { result ≡ start_number (start_of windows.now closing lead) }
{
    start_number(calendar::start_minute(windows, closing, lead))
}

fn conversion_number(x: Result<usize, ConversionError>) -> u64
    ensures { result ≡ conversion_number x }
{
    match x {
        Err(ConversionError::Record(n)) => u64::from(Refusal::Record) + BIT_8 * (n % BIT_56),
        Err(ConversionError::Short) => u64::from(Refusal::Short),
        Ok(n) => BIT_8 * (n as u64 % BIT_56),
    }
}

// Turns RFC 4180 records into drill lines.
pub fn pack_csv_to_drill(records: &[u8], lines: &mut [u8]) -> u64
    ensures answer { result ≡ conversion_number (conversion (drill_of_csv records.now) (length lines.old)) }
    ensures bytes { lines.new ≡ bytes_after (drill_of_csv records.now) lines.old }
{
    conversion_number(delivery_csv::csv_to_drill(records, lines))
}

// Turns drill lines into RFC 4180 records.
pub fn pack_drill_to_csv(lines: &[u8], records: &mut [u8]) -> u64
    ensures answer { result ≡ conversion_number (conversion (csv_of_drill lines.now) (length records.old)) }
    ensures bytes { records.new ≡ bytes_after (csv_of_drill lines.now) records.old }
{
    conversion_number(delivery_csv::drill_to_csv(lines, records))
}
