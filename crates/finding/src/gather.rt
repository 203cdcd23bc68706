// The least answer sets of a program behind a place: a tree over the undecided atoms, the highest first and dropped before up, so that they are
// met rising.
ghost use Rattle.std.specs.Prelude.{◌≤◌, ◌<◌, ◌≡◌, true, [], length};
ghost use Rattle.atoms.specs.Word.{ATOMS, Has};
ghost use Rattle.states.specs.Narrowing.{Narrows, branch_of};
ghost use Rattle.learning.specs.Reason.{Remembers};
ghost use Rattle.propagating.specs.Desk.{DESK_WORDS, Wired};
ghost use Rattle.finding.specs.Whole.{no_lists, hidden_of, Standing};
ghost use Rattle.finding.specs.Gather.{Added, Due, AllPassed, dark_of, Likely, Looked, KeptWitness, PlaceIn, Node, Descended};

use crate::ask::ask;
use crate::least::{is_behind, put};
use joining::filter::FILTER_WORDS;
use plan::MAX_UNITS;
use propagating::Job;
use propagating::agenda::woken;
use propagating::context::Context;
use propagating::desk::{INDEX, PILOTS};
use propagating::front::Front;
use propagating::propagate::propagate;
use states::{State, decide, undecided};

// What is asked: the program as one unit, its facts, and the place behind which answer sets are sought; the start where there is none.
#[derive(Clone, Copy)]
pub struct Query {
    pub unit: Job,
    pub facts: u64,
    pub from: Option<u64>,
}

// A node of the tree: where propagation stands, and a position that completes its state, if one is known: an answer set, or one that is passed.
#[derive(Clone, Copy)]
pub struct WalkNode {
    pub front: Front,
    pub known: Option<u64>,
}

// Whether the greatest completion of the state is not behind the place.
fn is_passed(s: State, from: Option<u64>) -> bool
    ensures { result ≡ true → AllPassed s from }
{
    !is_behind(from, atoms::outside(s.dropped))
}

// The position m, if it completes the state.
fn kept(m: u64, s: State) -> Option<u64>
    ensures { KeptWitness m s result }
{
    if !atoms::is_subset(s.up, m) {
        return None;
    }
    if !atoms::are_apart(s.dropped, m) {
        return None;
    }
    Some(m)
}

// The position itself, if it completes the state: no answer set need be looked for on the way to it.
pub fn place_in(s: State, from: Option<u64>) -> Option<u64>
    ensures { PlaceIn s from result }
{
    let p = from?;
    kept(p, s)
}

// The state as it is without pilots: all of them are dropped.
pub fn dark_of(s: State, hidden: u64) -> State
    ensures { result ≡ dark_of s hidden }
{
    State {
        up: atoms::without(s.up, hidden),
        dropped: atoms::union(s.dropped, hidden),
    }
}

// The front in another state, with the steps that it wakes beside those that were still to be taken.
pub fn onward(desk: &[u64], f: Front, after: State) -> Front
    requires { length desk.now ≡ DESK_WORDS }
    ensures { result.state ≡ after }
{
    let agenda = f.agenda;
    let before = f.state;
    Front {
        state: after,
        agenda: woken(&desk[INDEX..PILOTS], agenda, before, after),
        top: f.top,
    }
}

// The position that is known of the node, or an answer set that completes its state; or that none there is behind the place.
fn look(
    rules: &[u64],
    desk: &[u64],
    memory: &mut [u64],
    query: Query,
    node: WalkNode,
) -> Option<u64>
    requires { Node rules.now desk.now memory.old query.unit query.facts query.from node }
    ensures looked { Looked rules.now desk.now query.unit query.facts query.from node.front.state result }
    ensures stands { Standing rules.now desk.now memory.new query.unit query.facts node.front.state }
{
    let f = node.front;
    let from = query.from;
    let unit = query.unit;
    let dark = dark_of(f.state, atoms::without(unit.inputs, query.facts));
    if is_passed(dark, from) {
        return None;
    }
    if let Some(m) = node.known {
        return Some(m);
    }
    ask(rules, desk, memory, unit, query.facts, f)
}

// The front with the atom in the phase, after the steps that this wakes; they are not taken where all is passed.
fn step_down(
    rules: &[u64],
    desk: &[u64],
    memory: &mut [u64],
    query: Query,
    f: Front,
    k: usize,
    phase: bool,
) -> Front
    requires { Standing rules.now desk.now memory.old query.unit query.facts f.state × (k < ATOMS) }
    ensures narrows { Narrows (Wired rules.now [] no_lists desk.now query.unit)
        (branch_of f.state k phase) result.state }
    ensures remembers { Remembers (Wired rules.now [] no_lists desk.now query.unit) memory.new }
{
    let t = decide(f.state, k, phase);
    let from = query.from;
    let unit = query.unit;
    let dark = dark_of(t, atoms::without(unit.inputs, query.facts));
    if is_passed(dark, from) {
        let agenda = f.agenda;
        return Front {
            state: t,
            agenda,
            top: f.top,
        };
    }
    let table = [0u64; 0];
    let counts = [0usize; MAX_UNITS];
    let mut filter = [0u64; FILTER_WORDS];
    let g = onward(desk, f, t);
    let cx = Context {
        rules,
        table: &table,
        counts: &counts,
        desk,
        unit,
    };
    propagate(&cx, memory, &mut filter, g)
}

// The node of the atom in the phase; the position m goes with it if it lies there.
fn descend(
    rules: &[u64],
    desk: &[u64],
    memory: &mut [u64],
    query: Query,
    f: Front,
    m: u64,
    k: usize,
    phase: bool,
) -> WalkNode
    requires { Standing rules.now desk.now memory.old query.unit query.facts f.state
        × Likely rules.now desk.now query.unit query.facts query.from f.state m × (k < ATOMS)
        × (Has (hidden_of query.unit query.facts) k → ⊥) }
    ensures { Descended rules.now desk.now memory.new query.unit query.facts query.from
        f.state k phase result }
{
    let front = step_down(rules, desk, memory, query, f, k, phase);
    let dark = dark_of(front.state, atoms::without(query.unit.inputs, query.facts));
    WalkNode {
        front,
        known: kept(m, dark),
    }
}

// Puts the least answer sets that are sought and complete the node's state into the words from `at` on, until none is left or the words are full:
// the new count. All that lack the highest undecided atom are below all that have it, so that these are not looked for once the words are full.
pub fn gather(
    rules: &[u64],
    desk: &[u64],
    memory: &mut [u64],
    query: Query,
    node: WalkNode,
    skip: &[u64],
    out: &mut [u64],
    at: usize,
) -> usize
    requires { Node rules.now desk.now memory.old query.unit query.facts query.from node × (at ≤ length out.old) }
    ensures added { Added (Due rules.now desk.now query.unit query.facts query.from skip.now
        node.front.state) out.old at out.new result }
    ensures stands { Standing rules.now desk.now memory.new query.unit query.facts node.front.state }
{
    if out.len() <= at {
        return at;
    }
    let Some(m) = look(rules, desk, memory, query, node) else {
        return at;
    };
    let f = node.front;
    let dark = dark_of(f.state, atoms::without(query.unit.inputs, query.facts));
    let free = undecided(dark.up, dark.dropped);
    if free == 0 {
        let from = query.from;
        return put(out, at, from, skip, m);
    }
    let k = atoms::highest(free);
    let low = descend(rules, desk, memory, query, f, m, k, false);
    let mid = gather(rules, desk, memory, query, low, skip, out, at);
    if out.len() <= mid {
        return mid;
    }
    let up = descend(rules, desk, memory, query, f, m, k, true);
    gather(rules, desk, memory, query, up, skip, out, mid)
}
