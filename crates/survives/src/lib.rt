// Every answer that an estimator can return survives the trip through a record. There is no code here: the laws stand in
// proofs/.
#![tactic(auto)]
