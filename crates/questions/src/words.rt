// Questions as words, three to a question: up, dropped, count.
ghost use Rattle.std.specs.Prelude.{◌≡◌, ◌++◌};
ghost use Rattle.questions.specs.Questions.{asked_of, with_counts};
ghost use Rattle.questions.specs.QuestionWords.{questions_in, in_words, words_behind, Whole, AnsweredWords};

use crate::counter::{Asked, MAX_QUESTIONS, counts_of};
use crate::question::TooManyQuestions;

// How many words a question has.
pub const QUESTION_WORDS: usize = 3;

// The up and dropped words of the n questions.
// Stays: `words_of` reads structs and this reads words. One function for both would take a closure and its contract, which is no plainer.
fn take_words(words: &[u64], n: usize) -> Asked
    requires { Whole words.now n }
    ensures { result ≡ asked_of (questions_in words.now) }
{
    let mut up = [0u64; MAX_QUESTIONS];
    let mut dropped = [0u64; MAX_QUESTIONS];
    for i in 0..n {
        up[i] = words[QUESTION_WORDS * i];
        dropped[i] = words[QUESTION_WORDS * i + 1];
    }
    Asked { up, dropped }
}

// Writes the counts of the n questions.
fn put_counts(words: &mut [u64], n: usize, counts: [u64; MAX_QUESTIONS])
    requires { Whole words.old n }
    ensures { words.new ≡ in_words (with_counts (questions_in words.old) counts) ++ words_behind words.old }
{
    for i in 0..n {
        words[QUESTION_WORDS * i + 2] = counts[i];
    }
}

// The same as count_questions, on words; a rest that is no whole question is left as it is.
pub fn count_words(list: &[u64], words: &mut [u64]) -> Result<(), TooManyQuestions>
    ensures { AnsweredWords list.now words.old words.new result }
{
    let n = words.len() / QUESTION_WORDS;
    if MAX_QUESTIONS < n {
        return Err(TooManyQuestions);
    }
    let counts = counts_of(list, take_words(words, n), n);
    put_counts(words, n, counts);
    Ok(())
}
