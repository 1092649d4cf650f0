// The opening and the calls of the costliest session, one by one, for a program in C that makes them.
#![tactic(auto)]

mod sections;

ghost use Rattle.std.specs.Prelude.{◌≡◌, ◌≤◌, length, Some, Ok, Err, OnOk, IfOk, IfErr};
ghost use Rattle.costliest.specs.Calls.{opens};
ghost use Rattle.costliest_calls.specs.Numbered.{setting_at};
ghost use Rattle.costliest_calls.specs.Answers.{call_number, call_bytes, call_refusal, costliest_answer, costliest_bytes};
ghost use Rattle.costliest_calls.specs.laws.Sections.{engine_call, Small};

use sections::Concentrators;
use settings::Refusal;
use wire::Message;

// A call: the message of a concentrator over its link, or a turn.
#[derive(Clone, Copy)]
pub enum Call {
    Delivery(u8, Message),
    Turn,
}

const VERSION: u8 = 1;

const SESSION: u32 = 7;

// The own input of its opening.
const INPUT: u64 = 5;

// A call's kind in bits 8 to 15.
const DELIVERY: u64 = 256;

const TURN: u64 = 512;

// What the part of an answer is multiplied by that starts at bit 16, ..
const BIT_16: u64 = 65536;

// .. at bit 32.
const BIT_32: u64 = 4294967296;

// The longest message has 140 bytes.
#[tactic(auto, unfolding(crate::specs::Answers::call_refusal))]
fn admitted(n: u64, room: usize) -> Result<Concentrators, Refusal>
    ensures refused { IfErr result (λ k. call_refusal n room ≡ Err k) }
    ensures taken { OnOk result (call_refusal n room ≡ Ok tt) }
    ensures same { IfOk result (λ c. c ≡ n) }
    ensures enough { OnOk result (140 ≤ room) }
{
    let all = Concentrators::new(n).ok_or(Refusal::Settings)?;
    if room < turn::MESSAGE_BYTES {
        return Err(Refusal::Short);
    }
    Ok(all)
}

// The number of a call; the message of a delivery is written at the front of the lent bytes.
#[tactic(auto, using(records::specs::laws::Fill::length_blank), unfolding(crate::specs::Answers::call_number, crate::specs::Answers::call_bytes, crate::specs::laws::Sections::engine_call, calls::specs::Given::turn_with))]
fn write_call(c: Call, message: &mut [u8]) -> u64
    requires few { Small c }
    requires room { 140 ≤ length message.old }
    ensures answer { result ≡ call_number (Some (engine_call c)) }
    ensures bytes { message.new ≡ call_bytes (Some (engine_call c)) message.old }
{
    match c {
        Call::Delivery(link, m) => {
            let packs = [1u64, 2, 3, 4, 5, 6, 7, 8, 9, 10, 11, 12, 13, 14, 15, 16];
            let size = wire::write_message(m, VERSION, link, SESSION, &packs, message);
            DELIVERY + BIT_16 * size as u64 + BIT_32 * u64::from(link)
        }
        Call::Turn => TURN + BIT_16 * turn::MESSAGE_BYTES as u64,
    }
}

// Call k of the costliest session of n, from 1 on, in the order in which they are made: specs/Answers.antt has the bits of the answer.
#[tactic(auto, using(crate::specs::laws::Cases::pack_cases), unfolding(crate::specs::Answers::costliest_answer, crate::specs::Answers::costliest_bytes, crate::specs::Answers::call_number, crate::specs::Answers::call_bytes))]
pub fn pack_costliest_call(n: u64, k: u64, message: &mut [u8]) -> u64
    ensures answer { result ≡ costliest_answer n k (length message.old) }
    ensures bytes { message.new ≡ costliest_bytes n k message.old }
{
    match admitted(n, message.len()) {
        Err(refusal) => u64::from(refusal),
        Ok(all) => match all.call_of(k) {
            Some(call) => write_call(call, message),
            None => 0,
        },
    }
}

// Number k of its opening, from 1 on: n, ta, ts, own number, session, input, the coin words; 0 past the last. Its version is 1, its weights
// are all 1, its coins printed.
#[tactic(auto, unfolding(crate::specs::Numbered::setting_at, crate::specs::Numbered::opening_numbers, costliest::specs::Calls::opens))]
pub fn pack_costliest_setting(n: u64, k: u64) -> u64
    ensures { result ≡ setting_at (opens n) k }
{
    match k {
        1 => n,
        4 => 1,
        5 => u64::from(SESSION),
        6 => INPUT,
        // ta, ts and the coin words
        _ => 0,
    }
}
