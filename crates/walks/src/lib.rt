// The laws by which a loop over an index follows a definition that walks a list. No code: the crates that read a
// flash cite the definitions under specs/ and the laws under proofs/.
#![tactic(auto)]
