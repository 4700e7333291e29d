// Proofs only, in specs/: what demand 3 says of the exported call. There is no code here.
#![tactic(auto)]
