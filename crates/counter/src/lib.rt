// Definitions and proofs only: the number is the integer in a row's column, and a commit is that row's record set, its leaf laid anew.
#![tactic(auto)]
