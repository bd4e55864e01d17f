// The demands and the bench examples: statements in specs/, their proofs in proofs/.
#![tactic(auto)]
