// Agreement (PROTOCOL 16.3 to 16.10), and what sets hold (16.18, 16.19). The functions do nothing: their contracts state what is proved in specs/.
#![tactic(auto)]

ghost use Rattle.agreement.specs.Agreement.{Agree, Named, Valid};
ghost use Rattle.agreement.specs.DemandThree.{EngineAgrees};
ghost use Rattle.agreement.specs.HonestPack.{EngineHonestPack, EngineOutputFirst};
ghost use Rattle.agreement.specs.EngineRestores.{RestoreGives};
ghost use Rattle.agreement.specs.Plain.{PrintedMeets, PlainMeets};

// Agreement of the engine, all of it: specs/DemandThree.antt states it of whole lists of calls.
pub fn demand_three()
    ensures { EngineAgrees }
{}

// Each set that is named or in force holds the input of an honest one: specs/HonestPack.antt states it and what follows of whole lists of calls.
pub fn honest_pack()
    ensures { EngineHonestPack }
{}

// No vote is decided 1 whose broadcast had no output at an honest one before.
pub fn output_first()
    ensures { EngineOutputFirst }
{}

// Every cut of an honest one's journal, after its first line, gives the state after its last complete line, and that line's message.
pub fn restore_gives()
    ensures { RestoreGives }
{}

// Where coins are printed, conditions that ask nothing of recordings are enough.
pub fn printed_sessions()
    ensures { PrintedMeets }
{}

// Where, besides, nobody is restored, conditions that ask nothing of journals are enough.
pub fn without_restores()
    ensures { PlainMeets }
{}

// The theory behind it, of lawful histories.

// With up to ta liars all sets that exits name or that are in force are one and the same.
pub fn agreement()
    ensures { Agree }
{}

// With up to ts liars no set is in force that exits had not named before.
pub fn named_before()
    ensures { Named }
{}

// With up to ts liars and equal inputs, only the set of that input is named or in force.
pub fn validity()
    ensures { Valid }
{}
