// What one part of a job does on the bytes of an image: of its steps those in a window, whether they stay inside, and
// which comes next.
#![tactic(auto)]

pub mod into_places; // eight bytes into each of some places
mod programs;
pub mod rewriting; // a block rewritten
pub mod windows; // of some steps, those from one on
