// What the answers do not depend on: bytes outside the four blocks, and the granule where the pairs agree. No code: the
// definitions are under specs/, the theorems under proofs/.
#![tactic(auto)]
