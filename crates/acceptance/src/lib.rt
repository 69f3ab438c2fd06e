// Proofs only: proofs/Theorems.antt has what is proved of whole images, proofs/Images.antt images made by sqlite3, whole and damaged, with what the verdict and lookup say of them.
#![tactic(auto)]
