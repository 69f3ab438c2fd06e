// Proofs only: what setting a row does to an accepted image, told by its ledger.
#![tactic(auto)]
