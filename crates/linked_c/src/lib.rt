// The library as C and Rust link it: the functions of `linked` under the same names, with the same contracts.
#![tactic(auto)]

pub mod reads; // a flash read
pub mod inspects; // a flash looked into
pub mod starts; // a job started into its buffer
pub mod runs; // a job run, and what remains of it
