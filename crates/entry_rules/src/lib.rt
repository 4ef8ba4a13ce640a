// The first entry that does not keep a rule of a standing table, by itself or with an earlier one.
#![tactic(auto)]

pub mod each; // the first entry that does not keep a rule
pub mod naming; // rule 4, for most tables by whole fields
pub mod ranges; // rule 7, for most tables by neighbours
