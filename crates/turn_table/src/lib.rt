// Small states, and what the rules say is due there. The function does nothing: its contract states what is proved in specs/.
#![tactic(auto)]

ghost use Rattle.turn_table.specs.Statement.{TurnTable};

// In each state of the table the act that the rules name is the one due.
pub fn turn_table()
    ensures { TurnTable }
{}
