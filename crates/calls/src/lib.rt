// One model of calls, and the engine as a machine in it: specs/. The function does nothing: its contract states what is proved there.
#![tactic(auto)]

ghost use Rattle.calls.specs.SameSession.{SameSession};

// Openings of one session agree in all that makes a session.
pub fn same_session()
    ensures { SameSession }
{}
