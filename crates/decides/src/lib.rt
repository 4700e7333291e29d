// Proofs only, in specs/: any words are accepted or refused with a number and a place, and what is accepted is answered. There is no code here.
#![tactic(auto)]
