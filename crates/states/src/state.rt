// A half-decided position.
ghost use Rattle.std.specs.Prelude.{◌≡◌, ◌<◌};
ghost use Rattle.atoms.specs.Word.{ATOMS, EVERY_ATOM};
ghost use Rattle.atoms.specs.Bounded.{Decides};
ghost use Rattle.states.specs.State.{undecided as undecided_of};
ghost use Rattle.states.specs.Narrowing.{Overlaps, Within, clashed, decided_word, branch_of};

use atoms::EVERY_ATOM;

// A half-decided position: atoms known up and atoms known dropped. The others are undecided.
#[derive(Clone, Copy, PartialEq, Eq)]
pub struct State {
    pub up: u64,
    pub dropped: u64,
}

// The atoms that are neither up nor dropped.
pub fn undecided(up: u64, dropped: u64) -> u64
    ensures { result ≡ undecided_of up dropped }
{
    atoms::without(atoms::outside(up), dropped)
}

// A state that nothing completes: an atom is both up and dropped.
pub fn clash(s: State) -> State
    ensures { result ≡ clashed s }
{
    State {
        up: atoms::union(s.up, atoms::single(0)),
        dropped: atoms::union(s.dropped, atoms::single(0)),
    }
}

// The state with every atom up and dropped, which nothing completes.
pub fn everything() -> State
    ensures overlaps { Overlaps result }
    ensures decided { undecided_of result.up result.dropped ≡ 0 }
    ensures is { result ≡ record { up = EVERY_ATOM; dropped = EVERY_ATOM } }
{
    State {
        up: EVERY_ATOM,
        dropped: EVERY_ATOM,
    }
}

// The state with the atoms of the word in the phase as well: up, or dropped.
pub fn decide_word(s: State, word: u64, phase: bool) -> State
    ensures { result ≡ decided_word s word phase }
{
    if phase {
        return State {
            up: atoms::union(s.up, word),
            ..s
        };
    }
    State {
        dropped: atoms::union(s.dropped, word),
        ..s
    }
}

// The state with one more atom in the phase: up, or dropped.
pub fn decide(s: State, i: usize, phase: bool) -> State
    requires { i < ATOMS }
    ensures { result ≡ branch_of s i phase }
{
    decide_word(s, atoms::single(i), phase)
}

// Whether the state s has decided all that n has, and as n has it.
pub fn lies_within(n: State, s: State) -> bool
    ensures { Decides (Within n s) result }
{
    if !atoms::is_subset(n.up, s.up) {
        return false;
    }
    atoms::is_subset(n.dropped, s.dropped)
}
