// The quarry cases 1 to 5 of document 01, each a row, and each computed. There is no code.
#![tactic(auto)]
