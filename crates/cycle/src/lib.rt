// Proofs only: what the members of the cycle are given and promise, and the laws for their proofs. There is no code here.
#![tactic(auto)]
