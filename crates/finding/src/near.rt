// Answer sets near the place: those that differ from it in the lowest undecided atoms alone come before all others, and no steps are taken on a way
// down to them.
ghost use Rattle.std.specs.Prelude.{◌≤◌, ◌<◌, ◌≡◌, length};
ghost use Rattle.atoms.specs.Word.{ATOMS, outside};
ghost use Rattle.finding.specs.Whole.{Standing};
ghost use Rattle.finding.specs.Gather.{dark_of};
ghost use Rattle.finding.specs.Near.{like_of, high_free, last_like, PlaceAt, Reaches};

use crate::gather::{Query, WalkNode, dark_of, gather, onward, place_in};
use crate::least::is_behind;
use atoms::ATOMS;
use propagating::front::Front;
use states::{State, undecided};

// Where the tree begins, a place that completes its state, and the atom from which on positions are to be like the place.
#[derive(Clone, Copy)]
pub struct Near {
    pub front: Front,
    pub place: u64,
    pub bound: usize,
}

// The place behind which the rest is sought, and how many words are filled.
#[derive(Clone, Copy)]
pub struct Reached {
    pub from: Option<u64>,
    pub count: usize,
}

// The state with these atoms as they are in p.
fn like_place(s: State, which: u64, p: u64) -> State
    ensures { result ≡ like_of s which p }
{
    State {
        up: atoms::union(s.up, atoms::cut(which, p)),
        dropped: atoms::union(s.dropped, atoms::without(which, p)),
    }
}

// The undecided atoms from the bound on that are not hidden.
fn high_free(s: State, hidden: u64, bound: usize) -> u64
    requires { bound ≤ ATOMS }
    ensures { result ≡ high_free s hidden bound }
{
    let dark = dark_of(s, hidden);
    atoms::without(undecided(dark.up, dark.dropped), atoms::first(bound))
}

// The greatest position without hidden atoms that has these atoms as they are in p.
fn last_like(s: State, hidden: u64, which: u64, p: u64) -> u64
    ensures { result ≡ last_like s hidden which p }
{
    let t = like_place(dark_of(s, hidden), which, p);
    atoms::outside(t.dropped)
}

// Puts those that are sought, and like the place from the bound on, into the words from `at` on: how far that reaches.
fn gather_near(
    rules: &[u64],
    desk: &[u64],
    memory: &mut [u64],
    query: Query,
    near: Near,
    skip: &[u64],
    out: &mut [u64],
    at: usize,
) -> Reached
    requires { Standing rules.now desk.now memory.old query.unit query.facts near.front.state
        × PlaceAt query.unit query.facts query.from near.front.state near.place × (near.bound ≤ ATOMS)
        × (at ≤ length out.old) }
    ensures reaches { Reaches rules.now desk.now query.unit query.facts query.from skip.now
        near.front.state out.old at out.new result }
    ensures stands { Standing rules.now desk.now memory.new query.unit query.facts near.front.state }
{
    let from = query.from;
    if out.len() <= at {
        return Reached { from, count: at };
    }
    let f = near.front;
    let hidden = atoms::without(query.unit.inputs, query.facts);
    let high = high_free(f.state, hidden, near.bound);
    let last = last_like(f.state, hidden, high, near.place);
    if !is_behind(from, last) {
        return Reached { from, count: at };
    }
    let t = like_place(f.state, high, near.place);
    let node = WalkNode {
        front: onward(desk, f, t),
        known: Some(near.place),
    };
    let count = gather(rules, desk, memory, query, node, skip, out, at);
    Reached {
        from: Some(last),
        count,
    }
}

// The same for 1, 2, 4 .. atoms above the bound.
fn gather_wider(
    rules: &[u64],
    desk: &[u64],
    memory: &mut [u64],
    query: Query,
    near: Near,
    skip: &[u64],
    out: &mut [u64],
) -> Reached
    requires { Standing rules.now desk.now memory.old query.unit query.facts near.front.state
        × PlaceAt query.unit query.facts query.from near.front.state near.place × (near.bound ≤ ATOMS) }
    ensures reaches { Reaches rules.now desk.now query.unit query.facts query.from skip.now
        near.front.state out.old 0 out.new result }
    ensures stands { Standing rules.now desk.now memory.new query.unit query.facts near.front.state }
{
    let unit = query.unit;
    let front = near.front;
    let start = query.from;
    let mut reached = Reached {
        from: start,
        count: 0,
    };
    let mut width = 1;
    // Stays: the width doubles until the bound leaves the word, and a range with a step that grows would say no more than this.
    while near.bound + width < ATOMS {
        let from = reached.from;
        let further = Query {
            unit,
            facts: query.facts,
            from,
        };
        let wider = Near {
            front,
            place: near.place,
            bound: near.bound + width,
        };
        reached = gather_near(
            rules,
            desk,
            memory,
            further,
            wider,
            skip,
            out,
            reached.count,
        );
        width += width;
    }
    reached
}

// Puts those that are sought, and differ from the place in low atoms alone, into the words: how far that reaches. Nothing is put where the place does
// not complete the state.
pub fn gather_nearest(
    rules: &[u64],
    desk: &[u64],
    memory: &mut [u64],
    query: Query,
    front: Front,
    skip: &[u64],
    out: &mut [u64],
) -> Reached
    requires { Standing rules.now desk.now memory.old query.unit query.facts front.state }
    ensures reaches { Reaches rules.now desk.now query.unit query.facts query.from skip.now
        front.state out.old 0 out.new result }
    ensures stands { Standing rules.now desk.now memory.new query.unit query.facts front.state }
{
    let from = query.from;
    let dark = dark_of(front.state, atoms::without(query.unit.inputs, query.facts));
    let Some(place) = place_in(dark, from) else {
        return Reached { from, count: 0 };
    };
    let free = undecided(dark.up, dark.dropped);
    if free == 0 {
        return Reached { from, count: 0 };
    }
    let near = Near {
        front,
        place,
        bound: atoms::lowest(free),
    };
    gather_wider(rules, desk, memory, query, near, skip, out)
}
