// Proofs only, in specs/: inference as a computation, and that it and the rules of inference say the same. There is no code here.
#![tactic(auto)]
