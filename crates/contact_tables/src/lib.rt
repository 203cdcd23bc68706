// Contact tables: truth tables over at most six atoms, by words (document 02, S-4).
#![tactic(auto)]

mod rows;

pub use rows::{agreeing_rows, told_inputs};
