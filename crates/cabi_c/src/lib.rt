// The functions of the header, for programs in C: each calls the function of cabi of its name and states its contract.
#![tactic(auto)]

ghost use Rattle.std.specs.Prelude.{◌≡◌, length};
ghost use Rattle.journal.specs.Journal.{open_entry, opened_words, opened_bytes, deliver_entry, delivered_words, delivered_bytes, record_entry, record_words, record_bytes, turn_room, turned_message, turned_line};
ghost use Rattle.opening.specs.Given.{weights_word};
ghost use Rattle.opening.specs.Arguments.{arguments};
ghost use Rattle.calendar.specs.Calendar.{start_of};
ghost use Rattle.delivery_csv.specs.Converting.{drill_of_csv, csv_of_drill, conversion, bytes_after};
ghost use Rattle.coin_box.specs.Box.{box_open_answer, box_opened, request_reply, request_words};
ghost use Rattle.report.specs.Report.{report_answer, report_named, report_in_force};
ghost use Rattle.restore.specs.Restoring.{restore_answer, restored_words, restored_bytes};
ghost use Rattle.turn.specs.Turn.{turn_outcome, turn_words};
ghost use Rattle.cabi.specs.Answers.{taken_number, entry_number, outcome_number, report_number};
ghost use Rattle.cabi.specs.Restored.{restored_number};
ghost use Rattle.cabi.specs.Replies.{reply_number};
ghost use Rattle.cabi.specs.Starts.{start_number};
ghost use Rattle.cabi.specs.Conversions.{conversion_number};

// Opens a session in the lent words; its line of the journal stands at the front of the last lent bytes.
#[unsafe(no_mangle)]
pub extern "C" fn pack_open(
    state: &mut [u64],
    version: u64,
    n: u64,
    ta: u64,
    ts: u64,
    own: u64,
    session: u32,
    input: u64,
    coins: &[u32],
    weights: &[u8],
    boxed: u64,
    line: &mut [u8],
) -> u64
    ensures answer { result ≡ entry_number (open_entry (length state.old) (arguments version n ta ts own session input coins.now weights.now boxed) (length line.old)) }
    ensures words { state.new ≡ opened_words state.old (arguments version n ta ts own session input coins.now weights.now boxed) (length line.old) }
    ensures bytes { line.new ≡ opened_bytes (length state.old) (arguments version n ta ts own session input coins.now weights.now boxed) line.old }
{
    cabi::pack_open(
        state, version, n, ta, ts, own, session, input, coins, weights, boxed, line,
    )
}

// Delivers a message that came over the link of a concentrator; its line stands at the front of the last lent bytes.
#[unsafe(no_mangle)]
pub extern "C" fn pack_deliver(state: &mut [u64], link: u64, message: &[u8], line: &mut [u8]) -> u64
    ensures answer { result ≡ entry_number (deliver_entry state.old link message.now (length line.old)) }
    ensures words { state.new ≡ delivered_words state.old link message.now (length line.old) }
    ensures bytes { line.new ≡ delivered_bytes state.old link message.now line.old }
{
    cabi::pack_deliver(state, link, message, line)
}

// Records a bit of the coin box; its line stands at the front of the last lent bytes.
#[unsafe(no_mangle)]
pub extern "C" fn pack_record(
    state: &mut [u64],
    vote: u64,
    round: u64,
    bit: u64,
    line: &mut [u8],
) -> u64
    ensures answer { result ≡ entry_number (record_entry state.old vote round bit (length line.old)) }
    ensures words { state.new ≡ record_words state.old vote round bit (length line.old) }
    ensures bytes { line.new ≡ record_bytes state.old vote round bit line.old }
{
    cabi::pack_record(state, vote, round, bit, line)
}

// Takes a turn: a message that is sent stands at the front of the lent bytes, its line at the front of the last ones.
#[unsafe(no_mangle)]
pub extern "C" fn pack_turn(state: &mut [u64], message: &mut [u8], line: &mut [u8]) -> u64
    ensures answer { result ≡ outcome_number (turn_outcome state.old (turn_room (length message.old) (length line.old))) }
    ensures words { state.new ≡ turn_words state.old (turn_room (length message.old) (length line.old)) }
    ensures bytes { message.new ≡ turned_message state.old message.old (length line.old) }
    ensures line_bytes { line.new ≡ turned_line state.old (length message.old) line.old }
{
    cabi::pack_turn(state, message, line)
}

// Reports on a state: the sets stand at the front of the lent words.
#[unsafe(no_mangle)]
pub extern "C" fn pack_report(state: &[u64], named: &mut [u64], in_force: &mut [u64]) -> u64
    ensures answer { result ≡ report_number (report_answer state.now (length named.old) (length in_force.old)) }
    ensures named_words { named.new ≡ report_named state.now named.old (length in_force.old) }
    ensures in_force_words { in_force.new ≡ report_in_force state.now (length named.old) in_force.old }
{
    cabi::pack_report(state, named, in_force)
}

// Restores a state from its journal; the message of the last line, if it sent one, stands at the front of the lent bytes.
#[unsafe(no_mangle)]
pub extern "C" fn pack_restore(state: &mut [u64], journal: &[u8], message: &mut [u8]) -> u64
    ensures answer { result ≡ restored_number (restore_answer state.old journal.now (length message.old)) }
    ensures words { state.new ≡ restored_words state.old journal.now (length message.old) }
    ensures bytes { message.new ≡ restored_bytes (length state.old) journal.now message.old }
{
    cabi::pack_restore(state, journal, message)
}

// Opens a coin box in the lent words.
#[unsafe(no_mangle)]
pub extern "C" fn pack_box_open(
    words: &mut [u64],
    n: u64,
    ta: u64,
    ts: u64,
    coins: &[u32],
    weights: &[u8],
) -> u64
    ensures answer { result ≡ taken_number (box_open_answer (length words.old) n ta ts (weights_word n weights.now) (length coins.now)) }
    ensures words { words.new ≡ box_opened words.old n ta ts (weights_word n weights.now) coins.now }
{
    cabi::pack_box_open(words, n, ta, ts, coins, weights)
}

// Asks the coin box for the coin of a vote in a round.
#[unsafe(no_mangle)]
pub extern "C" fn pack_box_request(words: &mut [u64], requester: u64, vote: u64, round: u64) -> u64
    ensures answer { result ≡ reply_number (request_reply words.old requester vote round) }
    ensures words { words.new ≡ request_words words.old requester vote round }
{
    cabi::pack_box_request(words, requester, vote, round)
}

// Names the minute from which a set is in force: the first in a window, not before the closing minute and the lead together.
#[unsafe(no_mangle)]
pub extern "C" fn pack_start_minute(windows: &[u32], closing: u64, lead: u64) -> u64
    ensures { result ≡ start_number (start_of windows.now closing lead) }
{
    cabi::pack_start_minute(windows, closing, lead)
}

// Turns RFC 4180 records into drill lines.
#[unsafe(no_mangle)]
pub extern "C" fn pack_csv_to_drill(records: &[u8], lines: &mut [u8]) -> u64
    ensures answer { result ≡ conversion_number (conversion (drill_of_csv records.now) (length lines.old)) }
    ensures bytes { lines.new ≡ bytes_after (drill_of_csv records.now) lines.old }
{
    cabi::pack_csv_to_drill(records, lines)
}

// Turns drill lines into RFC 4180 records.
#[unsafe(no_mangle)]
pub extern "C" fn pack_drill_to_csv(lines: &[u8], records: &mut [u8]) -> u64
    ensures answer { result ≡ conversion_number (conversion (csv_of_drill lines.now) (length records.old)) }
    ensures bytes { records.new ≡ bytes_after (csv_of_drill lines.now) records.old }
{
    cabi::pack_drill_to_csv(lines, records)
}
