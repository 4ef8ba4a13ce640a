// Demand 3 said of what a caller of the library for C sees. No code: the definitions are under specs/, the theorem is
// proofs/Theorem.
#![tactic(auto)]
