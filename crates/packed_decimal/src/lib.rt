// Drop-away readings of the panel meter in packed decimal (document 02, S-5). A reading is a word of 16 bits: its two bytes, the first the high one.
#![tactic(auto)]

mod convert;
mod digits;
mod largest;
mod limit;
mod meter;
mod pair;
mod refusal;
mod sum;

pub use convert::{to_number, to_reading};
pub use largest::{Placed, find_largest};
pub use limit::compare;
pub use meter::{NOT_MEASURED, Reading};
pub use refusal::{Refusal, refusal_number, refusal_spot};
pub use sum::{Sum, add};
