// Proofs only: proofs/Stars.antt is the one table of the lines that were checked by hand and are proved of the definitions.
#![tactic(auto)]
