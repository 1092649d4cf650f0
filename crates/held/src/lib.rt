// What is held in the words of a state, and what deliveries and turns leave of it: laws only, in specs/.
#![tactic(auto)]
