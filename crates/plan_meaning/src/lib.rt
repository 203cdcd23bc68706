// What the lists of a plan mean: a crate without code.
#![tactic(auto)]
