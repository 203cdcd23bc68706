// Questions as the caller lends them: a slice of structs. Three functions take the words out, call the counter and fill the counts in.
ghost use Rattle.std.specs.Prelude.{◌≡◌, ◌≤◌, length};
ghost use Rattle.questions.specs.Counts.{MAX_QUESTIONS as Counts-as-MAX_QUESTIONS};
ghost use Rattle.questions.specs.Questions.{count_code, asked_of, with_counts, QuestionsAnswered};

use crate::counter::{Asked, MAX_QUESTIONS, counts_of};
use plan::CODE_STEP;

// Which positions are asked for: those with every up atom and no dropped one. The count is filled in.
#[derive(Clone, Copy)]
pub struct Question {
    pub up: u64,
    pub dropped: u64,
    pub count: u64,
}

// Why nothing is filled in.
#[derive(Clone, Copy)]
pub struct TooManyQuestions;

// The number of the refusal, document 02, S-2; its spot is 0.
const TOO_MANY_QUESTIONS: u64 = 17;

// 0 where the counts are filled in, else the code of the refusal.
pub fn counted_code(counted: Result<(), TooManyQuestions>) -> u64
    ensures { result ≡ count_code counted }
{
    match counted {
        Ok(()) => 0,
        Err(_) => CODE_STEP * TOO_MANY_QUESTIONS,
    }
}

// The words of the questions.
fn words_of(questions: &[Question]) -> Asked
    requires { length questions.now ≤ Counts-as-MAX_QUESTIONS }
    ensures { result ≡ asked_of questions.now }
{
    let mut up = [0u64; MAX_QUESTIONS];
    let mut dropped = [0u64; MAX_QUESTIONS];
    for (i, question) in questions.iter().enumerate() {
        up[i] = question.up;
        dropped[i] = question.dropped;
    }
    Asked { up, dropped }
}

// Fills the counts in.
fn fill_counts(questions: &mut [Question], counts: [u64; MAX_QUESTIONS])
    requires { length questions.old ≤ Counts-as-MAX_QUESTIONS }
    ensures { questions.new ≡ with_counts questions.old counts }
{
    for (i, question) in questions.iter_mut().enumerate() {
        question.count = counts[i];
    }
}

// How many listed positions fit each question, filled in; more than MAX_QUESTIONS questions are left as they are.
pub fn count_questions(list: &[u64], questions: &mut [Question]) -> Result<(), TooManyQuestions>
    ensures { QuestionsAnswered list.now questions.old questions.new result }
{
    let n = questions.len();
    if MAX_QUESTIONS < n {
        return Err(TooManyQuestions);
    }
    let counts = counts_of(list, words_of(questions), n);
    fill_counts(questions, counts);
    Ok(())
}
