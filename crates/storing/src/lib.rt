// Laws of bytes stored piece after piece in a lent slice. There is no code here: the laws stand in proofs/Storing, and
// another crate cites them as `Rattle.storing.proofs.Storing.{..}`.
#![tactic(auto)]
