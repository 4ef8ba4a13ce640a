// Worked values of single definitions on the quarry image, and demand 3 applied to one list on it. There is no code.
#![tactic(auto)]
