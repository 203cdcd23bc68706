// Reasons of steps, and pairs lifted over a trail by them.
#![tactic(auto)]

pub mod claim;
pub mod lift;
pub mod reasons;
