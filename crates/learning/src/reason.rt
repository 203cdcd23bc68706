// Reasons: a part of a state from which a step tells a goal. A pair with a goal in it is no less a nogood with the goal's reason in its place.
ghost use Rattle.std.specs.Prelude.{◌≡◌, ◌≤◌, length};
ghost use Rattle.atoms.specs.Bounded.{Decides};
ghost use Rattle.learning.specs.Nogood.{Avoids};
ghost use Rattle.learning.specs.Store.{MEMORY_WORDS, Keeps};
ghost use Rattle.learning.specs.Reason.{Tells, beyond_of, replaced, LearntOnce};

use crate::store::learn;
use crate::trail::score_atoms;
use states::{State, lies_within};

// Whether a step that came to this state tells the goal: the state has all of it, or nothing completes the state.
pub fn tells(t: State, goal: State) -> bool
    ensures { Decides (Tells t goal) result }
{
    if !atoms::are_apart(t.up, t.dropped) {
        return true;
    }
    lies_within(goal, t)
}

// What the pair names beyond the state.
pub fn beyond(n: State, s: State) -> State
    ensures { result ≡ beyond_of n s }
{
    State {
        up: atoms::without(n.up, s.up),
        dropped: atoms::without(n.dropped, s.dropped),
    }
}

// The pair with the part in place of what it names beyond the state.
pub fn replace(n: State, s: State, part: State) -> State
    ensures { result ≡ replaced n s part }
{
    State {
        up: atoms::union(atoms::cut(n.up, s.up), part.up),
        dropped: atoms::union(atoms::cut(n.dropped, s.dropped), part.dropped),
    }
}

// Learns the pair if none was learnt yet, something might complete it, and it names at most one atom beyond the base: whether one is learnt now. Until then
// the atoms score that were replaced since the pair before.
// Stays: a loop of the crate explaining hands the flag on from pair to pair, and the definition LearntOnce goes by it.
pub fn learn_once(memory: &mut [u64], base: State, old: State, n: State, learnt: bool) -> bool
    requires { MEMORY_WORDS ≤ length memory.old }
    ensures keeps { Keeps (Avoids n) memory.old memory.new }
    ensures once { LearntOnce base n learnt memory.old memory.new result }
{
    if learnt {
        return true;
    }
    let all = atoms::union(n.up, n.dropped);
    score_atoms(
        memory,
        atoms::without(atoms::union(old.up, old.dropped), all),
    );
    if !atoms::are_apart(n.up, n.dropped) {
        return false;
    }
    let new = beyond(n, base);
    if !atoms::at_most_one(atoms::union(new.up, new.dropped)) {
        return false;
    }
    learn(memory, n);
    score_atoms(memory, all);
    true
}
