// Theorems only: two route searches whose replies arrive mixed. The words are in specs/, the theorems in proofs/.
#![tactic(auto)]
