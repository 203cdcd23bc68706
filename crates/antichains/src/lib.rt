// Families of sets, none within another: no code, only theorems. Ten headed relays always fit.
#![tactic(auto)]
