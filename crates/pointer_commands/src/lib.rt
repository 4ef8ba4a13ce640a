// The commands that change the pointer blocks, once the view of the flash is known.
#![tactic(auto)]

pub mod enabling; // enable, and refusals 14 and 15
pub mod disabling; // disable, and refusal 8
