// The quarry cases as two tables, `starred` and `unstarred`, with one statement over each. There is no code.
#![tactic(auto)]
