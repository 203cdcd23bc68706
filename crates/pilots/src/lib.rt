// Pilots: spare atoms that follow the answers of contact tables.
#![tactic(auto)]

pub mod follow;
pub mod link;
pub mod table_step;
