// What a rule of a standing table asks of one entry, or of two.
#![tactic(auto)]

pub mod naming; // rules 3 and 4
pub mod ranges; // rules 5 to 7
pub mod named; // rules 9 to 11, of an entry with one of the six names
