// Nodes of the search, and what is found below them.
ghost use Rattle.std.specs.Prelude.{◌≡◌, ◌<◌};
ghost use Rattle.std.specs.Option.{option_or};
ghost use Rattle.atoms.specs.Word.{ATOMS};
ghost use Rattle.states.specs.Narrowing.{branch_of};
ghost use Rattle.narrowing.specs.Stops.{NoStop};
ghost use Rattle.learning.specs.Nogood.{Resolves, Merged};
ghost use Rattle.searching.specs.Node.{Finishes};

use crate::outlook::Outlook;
use crate::witness::is_enough;
use explaining::lift::Stretch;
use learning::nogood::merge;
use plan::LIST_WORDS;
use propagating::context::Context;
use propagating::front::{Front, branched};
use states::State;

// A way into the search: the atoms that show, how many positions are listed so far, where propagation stands, and the state in which the
// atom was decided.
#[derive(Clone, Copy)]
pub struct Branch {
    pub shown: u64,
    pub count: usize,
    pub front: Front,
    pub base: State,
}

// A node of the search: a branch with its steps taken, the way that they went, and what the state then leaves to search.
#[derive(Clone, Copy)]
pub struct Node {
    pub shown: u64,
    pub count: usize,
    pub way: Stretch,
    pub front: Front,
    pub next: Outlook,
}

// What was found below a node: how many positions are listed now, a pair that no member completes, and a member there.
#[derive(Clone, Copy)]
pub struct Found {
    pub count: usize,
    pub nogood: State,
    pub witness: Option<u64>,
}

// Where a search begins: nothing is listed yet.
pub fn root(shown: u64, front: Front, base: State) -> Branch
    ensures { result ≡ record { shown = shown; count = 0; front = front; base = base } }
{
    Branch {
        shown,
        count: 0,
        front,
        base,
    }
}

// A branch of a node: in the same search, at this count, one atom further down.
pub fn below(cx: &Context<'_>, node: Node, count: usize, i: usize, phase: bool) -> Branch
    requires { NoStop cx.now.rules.now cx.now.unit.rules node.front.state × (i < ATOMS) }
    ensures same { result ≡ record { shown = node.shown; count = count; front = result.front; base = node.front.state } }
    ensures decided { result.front.state ≡ branch_of node.front.state i phase }
{
    let front = node.front;
    let base = front.state;
    Branch {
        shown: node.shown,
        count,
        front: branched(cx.rules, cx.unit, cx.desk, front, i, phase),
        base,
    }
}

// What was found, put together.
pub fn found_of(count: usize, nogood: State, witness: Option<u64>) -> Found
    ensures { result ≡ record { count = count; nogood = nogood; witness = witness } }
{
    Found {
        count,
        nogood,
        witness,
    }
}

// Whether nothing more is to be found at a node, whose first branch found this: the list is too long, or a member was met and no atom that shows is
// left undecided.
pub fn is_done(first: Found, left: u64) -> bool
    ensures { Finishes first left result }
{
    if LIST_WORDS < first.count {
        return true;
    }
    is_enough(first.witness, left)
}

// What both branches of a node found, of which the first has the atom in the phase; they began from the state s.
pub fn joined(first: Found, second: Found, s: State, atom: usize, phase: bool) -> Found
    requires { atom < ATOMS }
    ensures is { result ≡ record { count = second.count; nogood = result.nogood; witness = option_or first.witness second.witness } }
    ensures resolves { Resolves second.nogood first.nogood result.nogood }
    ensures merged { Merged first.nogood second.nogood s atom phase result.nogood }
{
    let n = first.nogood;
    let m = second.nogood;
    let nogood = merge(n, m, s, atom, phase);
    found_of(second.count, nogood, first.witness.or(second.witness))
}
