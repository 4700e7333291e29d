// Proofs only, in specs/: an embedding of stores carries a course to a course, and a final term reduced again answers itself. There is no code here.
#![tactic(auto)]
