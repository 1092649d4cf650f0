// Which value was accepted first. The function does nothing: its contract states what is proved in specs/.
#![tactic(auto)]

ghost use Rattle.accepted_first.specs.AcceptedFirst.{AcceptedFirst};

// A turn of a session that was opened or restored sends in an AUX the value that was accepted first there: at some moment of the session it
// was accepted and the other value was not, and at none was it the other way round.
pub fn accepted_first()
    ensures { AcceptedFirst }
{}
