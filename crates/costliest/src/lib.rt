// The costliest session. The functions do nothing: their contracts state what is proved in specs/.
#![tactic(auto)]

ghost use Rattle.costliest.specs.Statement.{Costliest, FiveTurns, AtMostFive, AtMostSent};

// In version 1, for n from 2 to 16, the calls of the session bring exactly 99·n+3 turns; no calls bring more, by `turn_bound::turn_count`.
pub fn costliest_session()
    ensures { Costliest }
{}

// For n = 1 they bring 5 ..
pub fn five_turns()
    ensures { FiveTurns }
{}

// .. and no calls bring more.
pub fn at_most_five()
    ensures { AtMostFive }
{}

// For every n, no calls make a concentrator send more than 98·n+2 messages and 1,968·n+32 bytes since its last opening or restore; in version 2 FINISHes
// come to n more, of 20 bytes each.
pub fn at_most_sent()
    ensures { AtMostSent }
{}
