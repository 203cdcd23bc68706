// The theory of unit lists: no code, only theorems on definitions.
#![tactic(auto)]
