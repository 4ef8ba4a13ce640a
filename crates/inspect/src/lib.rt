// What is asked of a flash by the number of an entry or of a place, by whoever looks after it.
#![tactic(auto)]

pub mod entry; // the entries of the table read, and refusal 92
pub mod place; // the places of the pointer block read, and refusal 93
