// The quarry image, and what a row of a case says, by the definitions alone. There is no code.
#![tactic(auto)]
