// What a state leaves to search, and which atom comes next.
ghost use Rattle.std.specs.Prelude.{◌≡◌, ◌≤◌, ◌<◌, length};
ghost use Rattle.atoms.specs.Word.{ATOMS};
ghost use Rattle.atoms.specs.Bounded.{Decides};
ghost use Rattle.answer_sets.specs.Lent.{Lent};
ghost use Rattle.narrowing.specs.Stops.{Chosen};
ghost use Rattle.learning.specs.Store.{MEMORY_WORDS};
ghost use Rattle.searching.specs.Outlook.{Leaves, TriedUp};

use atoms::tally::prefer;
use learning::store::{RING, learnt_pairs};
use learning::trail::leaders;
use narrowing::choice::{Choice, choose, some_wide};
use propagating::context::Context;
use propagating::desk::{DESK_WORDS, LINKED, backing};
use states::{State, undecided};

// What a state leaves to search: nothing, since no member completes it; one full position; or two branches on this atom.
#[derive(Clone, Copy)]
pub enum Outlook {
    Stop,
    Leaf,
    Open(usize),
}

// The atoms whose rules come first in the choice: once there was a stop, those that are decided.
fn near_atoms(memory: &[u64], s: State) -> u64
    requires { MEMORY_WORDS ≤ length memory.now }
{
    if learnt_pairs(memory) == 0 {
        return 0;
    }
    atoms::union(s.up, s.dropped)
}

// What comes next: a rule that is at a stop, if there is one. Otherwise a free atom: first of those that show, then of those that stood most often in what
// was learnt, then by counts over the linked rules.
fn pick(
    rules: &[u64],
    linked: &[u64],
    which: u64,
    memory: &[u64],
    s: State,
    free: u64,
    shown: u64,
) -> Choice
    requires { Lent rules.now which × Lent linked.now which × (MEMORY_WORDS ≤ length memory.now) × (free ≡ 0 → ⊥) }
    ensures { Chosen rules.now which s free result }
{
    let leading = leaders(memory, prefer(free, shown));
    choose(rules, linked, which, s, leading, near_atoms(memory, s))
}

// With so many pairs learnt it is refuting that takes the time.
const MANY: usize = RING / 2;

// The phase in which the atom is tried first: up where a rule that may back it is wide, since that meets members sooner; dropped where none is, and
// once much was learnt, since that refutes sooner.
pub fn phase_of(cx: &Context<'_>, memory: &[u64], s: State, i: usize) -> bool
    requires { (MEMORY_WORDS ≤ length memory.now) × (i < ATOMS) }
    ensures { Decides (TriedUp cx.now.rules.now cx.now.desk.now cx.now.unit.rules memory.now s i) result }
{
    if MANY <= learnt_pairs(memory) {
        return false;
    }
    some_wide(cx.rules, backing(cx.desk, cx.unit.rules, i), s)
}

// What the state leaves to search of the unit; of the atoms those that show come first.
pub fn outlook_of(cx: &Context<'_>, memory: &[u64], s: State, shown: u64) -> Outlook
    requires { MEMORY_WORDS ≤ length memory.now }
    ensures { Leaves cx.now.rules.now cx.now.unit.rules s result }
{
    if !atoms::are_apart(s.up, s.dropped) {
        return Outlook::Stop;
    }
    let free = undecided(s.up, s.dropped);
    if free == 0 {
        return Outlook::Leaf;
    }
    let linked = &cx.desk[LINKED..DESK_WORDS];
    let choice = pick(cx.rules, linked, cx.unit.rules, memory, s, free, shown);
    match choice {
        Choice::Atom(i) => Outlook::Open(i),
        Choice::Stop(_) => Outlook::Stop,
    }
}
