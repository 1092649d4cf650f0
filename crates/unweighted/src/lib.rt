// Weights of 1. The function does nothing: its contract states what is proved in specs/.
#![tactic(auto)]

ghost use Rattle.unweighted.specs.Statement.{Unweighted};

// With all weights 1 every answer of the calls, recordings among them, equals the unweighted one.
pub fn all_ones()
    ensures { Unweighted }
{}
