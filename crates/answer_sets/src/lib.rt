// Judging one position over lent rules: the single-position crate.
#![tactic(auto)]

pub mod known;
pub mod memo;
mod position;
pub mod reduct;
mod rounds;
pub mod rule;
pub mod rule_pass;
pub mod smaller;
mod tried;
pub mod truth;
pub mod uses;

pub use position::{
    Judged, has_smaller, is_answer_set, judge_position, judge_set, judge_set_by, lent_numbers,
};
pub use truth::Truth;
