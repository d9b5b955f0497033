// The rules of the host said a second time, in plain terms and with the rules' own numbers. Theorems alone: the statements are in
// specs/, the proofs in proofs/.
#![tactic(auto)]
