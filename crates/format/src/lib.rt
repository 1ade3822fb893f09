#![tactic(auto)]

// Document 01 as definitions (specs/), and what is proved of them (proofs/). No code.
