// Proofs only: that replacement down the rows is textbook substitution of what the rows read out as. There is no code here.
#![tactic(auto)]
