// What the nodes show is a state of the rules, and what the walks take out is what the rules say: pure mathematics, in proofs/. There is
// nothing to run.

#![tactic(auto)]
