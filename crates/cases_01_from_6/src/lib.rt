// The quarry cases of document 01 from case 6 on, each a row, and each computed. There is no code.
#![tactic(auto)]
