// Proofs only, in specs/: each firing read out as the tree rule that it stands for. There is no code here.
#![tactic(auto)]
