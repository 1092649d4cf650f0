// Laws of the drill. The functions do nothing: their contracts state what is proved in specs/.
#![tactic(auto)]

ghost use Rattle.drill_core.specs.Parts.{PartsJoined};
ghost use Rattle.drill_laws.specs.ByLines.{ByLines};
ghost use Rattle.drill_laws.specs.Demands.{OpeningsAccepted, MessagesKept, RoundsEnd};
ghost use Rattle.drill_laws.specs.OutputLength.{OutputWhole};

// In whatever parts the input is fed, the output is that of the whole.
pub fn parts_joined()
    ensures { PartsJoined }
{}

// The output is that of the lines of the input, taken one after the other.
pub fn by_lines()
    ensures { ByLines }
{}

// Whatever the input, the openings of the honest ones are accepted once an N line is taken.
pub fn openings_accepted()
    ensures { OpeningsAccepted }
{}

// Whatever the input, no message that a turn would send is lost for want of room: the store has a place for each.
pub fn messages_kept()
    ensures { MessagesKept }
{}

// Whatever the input, neither the turns nor the rounds that an R is given are the reason why it ends.
pub fn rounds_end()
    ensures { RoundsEnd }
{}

// Whatever the input, 2,048 lent bytes hold the whole output.
pub fn output_whole()
    ensures { OutputWhole }
{}
