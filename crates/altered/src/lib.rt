// Definitions and proofs only: specs/ says which bytes of an image may change, proofs/ that no answer depends on them.
#![tactic(auto)]
