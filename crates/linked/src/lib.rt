// The functions that `linked_c` gives to C and Rust: numbers, lent slices, and a job as bytes in a lent buffer.
//
// Each function returns 0, or the number of a refusal, which leaves all that is lent as it was.
#![tactic(auto)]

pub mod reads; // a flash read
pub mod inspects; // a flash looked into
pub mod starts; // a job started into its buffer
pub mod runs; // a job run, and what remains of it
