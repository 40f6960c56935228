// What the rules promise, proved: covers are neither lost nor invented, settled means settled, one outcome for each input. Pure mathematics
// about the definitions of crate rules, in proofs/. There is nothing to run.

#![tactic(auto)]
