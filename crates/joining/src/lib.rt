// The lists of a unit's direct predecessors: the exact join, and what their entries tell of a half-decided position.
#![tactic(auto)]

pub mod filter;
pub mod join;
mod listed;
pub mod nearest;
mod sift;
