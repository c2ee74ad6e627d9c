// Definitions and laws only: lines in a row, as a state is printed. The definitions stand in specs/, the laws in proofs/.
#![tactic(auto)]
