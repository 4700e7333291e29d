// Proofs only: on accepted input the rules answer or refuse, one of the two and in one way, in specs/. There is no code here.
#![tactic(auto)]
