// Definitions and proofs only: the rules as a computation, in specs/. There is no code here.
#![tactic(auto)]
