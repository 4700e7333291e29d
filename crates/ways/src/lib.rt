// Proofs only: the ways out of each head rule, for the code that follows them. There is no code here.
#![tactic(auto)]
