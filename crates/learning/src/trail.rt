// Advice beside the store: the steps that changed the state, and how often each atom stood in what was learnt. The pairs stay as they are.
ghost use Rattle.std.specs.Prelude.{◌≤◌, ◌<◌, ◌≡◌, length, get_or, set};
ghost use Rattle.atoms.specs.Word.{SomeOf, ◌∖◌};
ghost use Rattle.learning.specs.Store.{MEMORY_WORDS, STEPS, UNFOUNDED, SamePairs};
ghost use Rattle.learning.specs.Trail.{step_at, StepNoted, Scored, Leading};

use crate::store::{MEMORY_WORDS, SCORES, STEP_WORDS, STEPS, TRAIL, UNFOUNDED, learnt_pairs, note};
use atoms::tally::{count_atoms, most};
use states::State;

// A step by its number, and the state before it.
#[derive(Clone, Copy)]
pub struct Recorded {
    pub before: State,
    pub step: usize,
}

// Notes a step that changed the state as step `at` of the trail, as far as there is room; where the next one is noted.
pub fn note_step(memory: &mut [u64], at: usize, step: usize, before: State, after: State) -> usize
    requires { MEMORY_WORDS ≤ length memory.old }
    ensures same { SamePairs memory.old memory.new }
    ensures noted { StepNoted at step before after memory.old memory.new result }
{
    if before == after || STEPS <= at {
        return at;
    }
    let first = TRAIL + STEP_WORDS * at;
    note(memory, first, before.up);
    note(memory, first + 1, before.dropped);
    note(memory, first + 2, step as u64);
    at + 1
}

// Step `at` of the trail as it was noted.
pub fn read_step(memory: &[u64], at: usize) -> Recorded
    requires { (MEMORY_WORDS ≤ length memory.now) × (at < STEPS) }
    ensures { result ≡ step_at memory.now at }
{
    Recorded {
        before: State {
            up: memory[TRAIL + STEP_WORDS * at],
            dropped: memory[TRAIL + STEP_WORDS * at + 1],
        },
        step: memory[TRAIL + STEP_WORDS * at + 2] as usize,
    }
}

// Of these atoms those that were undecided at step `at` of the trail.
pub fn decided_since(memory: &[u64], at: usize, which: u64) -> u64
    requires { (MEMORY_WORDS ≤ length memory.now) × (at < STEPS) }
    ensures { result ≡ (which ∖ (step_at memory.now at).before.up) ∖ (step_at memory.now at).before.dropped }
{
    let before = read_step(memory, at).before;
    atoms::without(atoms::without(which, before.up), before.dropped)
}

// Notes the atoms that a full position has beyond a smaller set, which the test of the position found.
pub fn note_unfounded(memory: &mut [u64], which: u64)
    requires { MEMORY_WORDS ≤ length memory.old }
    ensures same { SamePairs memory.old memory.new }
    ensures is { memory.new ≡ set memory.old UNFOUNDED which }
{
    note(memory, UNFOUNDED, which);
}

// The atoms so noted last.
pub fn noted_unfounded(memory: &[u64]) -> u64
    requires { MEMORY_WORDS ≤ length memory.now }
    ensures { result ≡ get_or memory.now UNFOUNDED 0 }
{
    memory[UNFOUNDED]
}

// Notes that these atoms stood in what was learnt.
pub fn score_atoms(memory: &mut [u64], which: u64)
    requires { MEMORY_WORDS ≤ length memory.old }
    ensures same { SamePairs memory.old memory.new }
    ensures scored { Scored which memory.old memory.new }
{
    count_atoms(&mut memory[SCORES..MEMORY_WORDS], which);
}

// Of these atoms those with the highest score; at first all.
pub fn leaders(memory: &[u64], which: u64) -> u64
    requires { (MEMORY_WORDS ≤ length memory.now) × (which ≡ 0 → ⊥) }
    ensures some { SomeOf which result }
    ensures leading { Leading memory.now which result }
{
    if learnt_pairs(memory) == 0 {
        return which;
    }
    most(&memory[SCORES..MEMORY_WORDS], which)
}
