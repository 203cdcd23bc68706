// Sums of parities: contact tables that say whether an odd number of their inputs is up, as rows with their pilots, and the step that sums them.
#![tactic(auto)]

mod rows;
mod sums;
mod tables;
mod told;

pub use sums::sum_step;
pub use tables::{is_parity, parity_atoms, parity_tables};
pub use told::{telling_atoms, telling_rules};
