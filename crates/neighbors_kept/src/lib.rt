// Theorems only: every changing call of the neighbours by value leaves a well-formed state well formed. The theorems are in proofs/.
#![tactic(auto)]
