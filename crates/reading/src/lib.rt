// Reading a plan: from its bytes to the record of its declared sizes, given atoms, contact tables, rules, uses, units, edges and shown atoms, or the first
// fault.
#![tactic(auto)]

mod command;
mod count;
mod dispatch;
mod edge;
mod end;
mod given;
mod kinds;
mod order;
mod reader;
mod rule;
mod show;
mod table;
mod unit;
mod usage;
mod words;

pub use command::Command;
pub use reader::read_plan;
pub use words::{WORD_BYTES, read_word};
