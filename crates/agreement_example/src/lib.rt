// Agreement does not speak of nothing: lists of calls that meet its conditions, after which honest concentrators name a set and have it in force.
// They differ in how the set comes about (each exit, weights, boxed coins, restores), in the liars (of up to ta, or of up to ts), and in what the
// conditions leave open (calls before the own opening, honest ones that are never opened).
// The functions do nothing: their contracts state what is proved in specs/.
#![tactic(auto)]

ghost use Rattle.agreement_example.specs.One.{OneMeets};
ghost use Rattle.agreement_example.specs.Four.{FourMeet};
ghost use Rattle.agreement_example.specs.Weighted.{WeightedMeet};
ghost use Rattle.agreement_example.specs.Boxed.{BoxedMeet, Waits};
ghost use Rattle.agreement_example.specs.Finishing.{FinishingMeet, DecidedByFinishes};
ghost use Rattle.agreement_example.specs.Unequal.{UnequalMeet};
ghost use Rattle.agreement_example.specs.LowTa.{LowTaMeet};
ghost use Rattle.agreement_example.specs.UnnamedTa.{UnnamedMeet};
ghost use Rattle.agreement_example.specs.Foreign.{ForeignMeet};
ghost use Rattle.agreement_example.specs.Unopened.{UnopenedMeet};
ghost use Rattle.agreement_example.specs.PowerLost.{LostMeets};
ghost use Rattle.agreement_example.specs.LineLost.{LineMissed};

// One concentrator closes with the set of its own input.
pub fn one_concentrator()
    ensures { OneMeets }
{}

// Three honest concentrators close with the set of their common input, beside a liar.
pub fn four_concentrators()
    ensures { FourMeet }
{}

// A heavy and a light honest concentrator close by Exit 2, whose majority is the heavy one's weight.
pub fn weighted_concentrators()
    ensures { WeightedMeet }
{}

// The same with boxed coins, whose bits both record.
pub fn boxed_concentrators()
    ensures { BoxedMeet }
{}

// Until it has recorded the bit, a concentrator of that session waits: its turns are idle.
pub fn waits_for_coin()
    ensures { Waits }
{}

// In version 2 the heavy one's moves decide the votes, and its FINISHes decide those of the light one; both close.
pub fn finishing_concentrators()
    ensures { FinishingMeet }
{}

// The light one's votes are decided by the delivery of FINISHes, before it leaves a round.
pub fn decided_by_finishes()
    ensures { DecidedByFinishes }
{}

// Three honest concentrators with unequal inputs close by Exit 3 with the set of all three, beside a liar that never sends.
pub fn unequal_inputs()
    ensures { UnequalMeet }
{}

// With ta = 0 and ts = 1 two honest concentrators close with the set of their common input, beside a liar: more than ta, but not more than ts.
pub fn liar_over_ta()
    ensures { LowTaMeet }
{}

// The same where the openings leave ta unnamed: it is the largest that is allowed, here 1, and the liar weighs 2 = ts.
pub fn unnamed_ta()
    ensures { UnnamedMeet }
{}

// A concentrator is opened twice under other numbers before its own opening, and then closes with the others.
pub fn foreign_openings()
    ensures { ForeignMeet }
{}

// An honest concentrator is never opened, and the two others close, beside a liar.
pub fn unopened_concentrator()
    ensures { UnopenedMeet }
{}

// One concentrator loses power twice, falls back both times to a cut of its journal, and closes.
pub fn restored_concentrator()
    ensures { LostMeets }
{}

// A list that restores one without the line of a message that left does not meet the conditions, so that one counts as a liar.
pub fn lost_line()
    ensures { LineMissed }
{}
