// The count of turns and its bound. The function does nothing: its contract states what is proved in specs/.
#![tactic(auto)]

ghost use Rattle.turn_bound.specs.TurnBound.{TurnCount};

// Once a session was opened or restored, its coins printed or boxed, the stored and the reported count are the number of turns that acted since, of
// a restore with the turns that it kept, at most 99·n+3, in version 2 at most 100·n+3, and the words hold a state. Recordings do not count.
pub fn turn_count()
    ensures { TurnCount }
{}
