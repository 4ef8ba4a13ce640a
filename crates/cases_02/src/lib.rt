// The quarry cases of document 02's requests, each a row, and each computed. There is no code.
#![tactic(auto)]
