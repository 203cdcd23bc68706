// Half-decided positions and the positions that complete them. Nothing here knows of rules.
#![tactic(auto)]

mod one_atom;
mod state;

pub use one_atom::{one_down, one_up};
pub use state::{State, clash, decide, decide_word, everything, lies_within, undecided};
