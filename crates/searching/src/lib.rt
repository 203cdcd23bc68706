// The search for the list of one unit.
#![tactic(auto)]

pub mod begin;
mod dive;
mod enter;
pub mod find;
mod listing;
mod member;
mod node;
mod outlook;
pub mod search;
mod seek;
pub mod spare;
mod stop;
pub mod subsets;
pub mod witness;
