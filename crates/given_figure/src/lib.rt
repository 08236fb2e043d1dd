// When a board figure is given, and that it is above none of the four estimates. There is no code here: the laws stand in proofs/.
#![tactic(auto)]
