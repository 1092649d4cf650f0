// The functions of costliest_calls for a program in C, each with its contract.
#![tactic(auto)]

ghost use Rattle.std.specs.Prelude.{◌≡◌, length};
ghost use Rattle.costliest.specs.Calls.{opens};
ghost use Rattle.costliest_calls.specs.Numbered.{setting_at};
ghost use Rattle.costliest_calls.specs.Answers.{costliest_answer, costliest_bytes};

// Call k of the costliest session of n, from 1 on, in the order in which they are made: specs/Answers.antt has the bits of the answer.
#[unsafe(no_mangle)]
pub extern "C" fn pack_costliest_call(n: u64, k: u64, message: &mut [u8]) -> u64
    ensures answer { result ≡ costliest_answer n k (length message.old) }
    ensures bytes { message.new ≡ costliest_bytes n k message.old }
{
    costliest_calls::pack_costliest_call(n, k, message)
}

// Number k of its opening, from 1 on: n, ta, ts, own number, session, input, the coin words; 0 past the last. Its version is 1, its weights
// are all 1, its coins printed.
#[unsafe(no_mangle)]
pub extern "C" fn pack_costliest_setting(n: u64, k: u64) -> u64
    ensures { result ≡ setting_at (opens n) k }
{
    costliest_calls::pack_costliest_setting(n, k)
}
