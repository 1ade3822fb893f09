// The round trip over the public calls: a theorem alone, see proofs/.
#![tactic(auto)]
