// What is told of a slot or of an entry by a table.
#![tactic(auto)]

pub mod entry; // one entry, slot or not, and refusal 92
pub mod slot; // one slot, and refusal 7
