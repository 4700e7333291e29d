// Proofs only: what the rules and their computation promise, in specs/. There is no code here.
#![tactic(auto)]
