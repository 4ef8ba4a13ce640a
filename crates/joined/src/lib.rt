// Demand 3 said of what a caller of the code sees. No code: the definitions are under specs/, the theorem is
// proofs/Theorem.
#![tactic(auto)]
