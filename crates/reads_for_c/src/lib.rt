// A flash read and looked into for C: what `reading`, `views` and `inspect` answer, as the number returned and as what the
// lent places hold afterwards. A refusal leaves all that is lent as it was.
#![tactic(auto)]

pub mod reads; // the boot order, the slots
pub mod inspects; // where things are, which copies stand and agree, the entries, the places
