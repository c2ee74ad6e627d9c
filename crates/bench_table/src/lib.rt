// Theorems only: the bench table of document 01, a file of proofs/ for each row.
#![tactic(auto)]
