// Pairs of words that no position of interest completes. A pair is a state: its atoms that are up and those that are dropped.
ghost use Rattle.std.specs.Prelude.{◌≡◌, ◌<◌};
ghost use Rattle.atoms.specs.Word.{ATOMS};
ghost use Rattle.states.specs.Narrowing.{Narrows, Within, Overlaps};
ghost use Rattle.learning.specs.Nogood.{Avoids, resolvent, Resolves, Merged};

use states::{State, lies_within, one_down, one_up};

// The state after a pair that is not to be completed: where one atom is missing it goes the other way, and where none is, nothing completes it.
pub fn refute(n: State, s: State) -> State
    ensures narrows { Narrows (Avoids n) s result }
    ensures stops { Within n s → Overlaps result }
{
    let up = atoms::without(n.up, s.up);
    let dropped = atoms::without(n.dropped, s.dropped);
    if up == 0 {
        return one_up(dropped, s);
    }
    if dropped == 0 {
        return one_down(up, s);
    }
    s
}

// The pair that is left of two without the atom: of the first, which has it up, and the second, which has it dropped.
fn resolve(first: State, second: State, atom: usize) -> State
    requires { atom < ATOMS }
    ensures is { result ≡ resolvent first second atom }
    ensures resolves { Resolves first second result }
{
    State {
        up: atoms::union(atoms::drop(first.up, atom), second.up),
        dropped: atoms::union(first.dropped, atoms::drop(second.dropped, atom)),
    }
}

// The pair that is left of two branches' pairs; the first branch has the atom in the phase. It is the second pair where that lies within the state that they
// began from, and otherwise both pairs without the atom.
pub fn merge(first: State, second: State, s: State, atom: usize, phase: bool) -> State
    requires { atom < ATOMS }
    ensures resolves { Resolves second first result }
    ensures merged { Merged first second s atom phase result }
{
    if lies_within(second, s) {
        return second;
    }
    if phase {
        return resolve(first, second, atom);
    }
    resolve(second, first, atom)
}
