// 01, Worked by hand: one list of examples, one statement that the definitions give each. No code.
#![tactic(auto)]
