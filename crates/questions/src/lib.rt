// Questions over a list of positions: how many positions fit each question; and the atoms up in all positions and in some.
#![tactic(auto)]

mod common;
mod counter;
mod question;
mod words;

pub use common::{Common, common_atoms};
pub use counter::{Asked, MAX_QUESTIONS};
pub use question::{Question, TooManyQuestions, count_questions, counted_code};
pub use words::{QUESTION_WORDS, count_words};
