// A word of which one atom has to go one way.
ghost use Rattle.std.specs.Prelude.{true, false};
ghost use Rattle.states.specs.Narrowing.{SomeUp, SomeDown, SomeGoes, OneGoes};

use crate::state::{State, clash, decide_word};

// One atom of the word goes the way of the phase: the state in which it does where the word has one; with none nothing completes it.
fn one_goes(word: u64, phase: bool, s: State) -> State
    ensures { OneGoes (SomeGoes word phase) word s result }
{
    if word == 0 {
        return clash(s);
    }
    if !atoms::at_most_one(word) {
        return s;
    }
    decide_word(s, word, phase)
}

// One atom of the word is up.
pub fn one_up(word: u64, s: State) -> State
    ensures { OneGoes (SomeUp word) word s result }
{
    one_goes(word, true, s)
}

// One atom of the word is dropped.
pub fn one_down(word: u64, s: State) -> State
    ensures { OneGoes (SomeDown word) word s result }
{
    one_goes(word, false, s)
}
