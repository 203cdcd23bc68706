// The dependency graph between units: reach, head atoms, the working order, and the check of the graph conditions.
#![tactic(auto)]

pub mod check;
mod cycle;
mod dependences;
mod gather;
mod given;
pub mod head_atoms;
mod placement;
mod reach;
mod rule_heads;
pub mod working_order;
