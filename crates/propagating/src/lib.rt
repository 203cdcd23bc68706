// Propagation: a unit's steps by an agenda, until none has anything new to say.
#![tactic(auto)]

pub mod agenda;
pub mod context;
pub mod desk;
pub mod front;
pub mod propagate;
pub mod step;
mod unit;

pub use unit::Job;
