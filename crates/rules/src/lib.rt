// Definitions only: the rules stand in specs/, one file for each part of document 01. There is no code here.
#![tactic(auto)]
