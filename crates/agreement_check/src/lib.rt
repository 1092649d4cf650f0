// A list of calls checked by computing it, and that a list which passes meets the conditions of agreement: specs/.
#![tactic(auto)]
