// Every settled position of a plan, listed in the lent table.
#![tactic(auto)]

mod positions;
mod table;
mod work;

pub use positions::list_positions;
