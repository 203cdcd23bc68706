// A sheet by relay (document 02, S-9): a list of 256 positions becomes 64 rows of 256 bits, and back.
#![tactic(auto)]

mod area;
mod block;
mod positions;
mod rows;
mod strided;

pub use area::{AREA_WORDS, NoSheet, ROW_WORDS, rearranged_code};
pub use positions::to_positions;
pub use rows::to_rows;
