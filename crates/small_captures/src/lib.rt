// The small captures of document 01 that are checked by hand, as one statement over a list: no code, a definition of the rows in
// specs/ and the proof that each estimator's definition answers them.
#![tactic(auto)]
