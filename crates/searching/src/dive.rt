// Ways down before the search: each follows one branch alone and learns from its stop, so that the first atom of the search is chosen by what was
// learnt. They list nothing.
ghost use Rattle.std.specs.Prelude.{◌≡◌, ◌<◌};
ghost use Rattle.std.specs.Int.Count.{ones};
ghost use Rattle.states.specs.State.{undecided as undecided_of};
ghost use Rattle.states.specs.Narrowing.{Overlaps};
ghost use Rattle.learning.specs.Reason.{Remembers};
ghost use Rattle.propagating.specs.Context.{WiredIn, FilteredIn};
ghost use Rattle.searching.specs.Entered.{WentDown};

use crate::outlook::{Outlook, outlook_of, phase_of};
use crate::stop::stop;
use explaining::lift::span;
use joining::filter::copied;
use propagating::context::Context;
use propagating::front::{Front, branched};
use propagating::propagate::propagate;
use states::{State, everything, undecided};

// With fewer atoms undecided the search is short, and a way down before it is not worth its time.
const DEEP: usize = 24;

// How many ways down there are at most.
const WAYS: usize = 16;

// The undecided atoms of a state that something completes.
fn free_atoms(s: State) -> u64
    ensures { (result ≡ 0 → ⊥) → result ≡ undecided_of s.up s.dropped }
{
    if !atoms::are_apart(s.up, s.dropped) {
        return 0;
    }
    undecided(s.up, s.dropped)
}

// The front at a stop: nothing completes its state, and nothing is left to decide.
fn halted(f: Front) -> Front
    ensures overlaps { Overlaps result.state }
    ensures decided { undecided_of result.state.up result.state.dropped ≡ 0 }
{
    let agenda = f.agenda;
    Front {
        state: everything(),
        agenda,
        top: f.top,
    }
}

// The front one atom further down: the atom is decided in its phase, and steps are taken until none has anything new to say. Where a rule is at a
// stop nothing is left to decide.
fn descend(cx: &Context<'_>, memory: &mut [u64], filter: &mut [u64], f: Front) -> Front
    requires { Remembers (WiredIn cx.now) memory.old × FilteredIn cx.now f.state filter.old
        × (undecided_of f.state.up f.state.dropped ≡ 0 → ⊥) }
    ensures filtered { FilteredIn cx.now result.state filter.new }
    ensures remembers { Remembers (WiredIn cx.now) memory.new }
    ensures onward { WentDown cx.now.rules.now cx.now.unit.rules f.state result.state }
    ensures falls { ones (undecided_of result.state.up result.state.dropped) < ones (undecided_of f.state.up f.state.dropped) }
{
    let s = f.state;
    let next = outlook_of(cx, memory, s, s.up);
    let Outlook::Open(i) = next else {
        return halted(f);
    };
    let phase = phase_of(cx, memory, s, i);
    let below = branched(cx.rules, cx.unit, cx.desk, f, i, phase);
    propagate(cx, memory, filter, below)
}

// Learns from the state if it is a stop, and whether it is; the state above it is that of the front before.
fn learn_stop(cx: &Context<'_>, memory: &mut [u64], above: Front, f: Front) -> bool
    requires { Remembers (WiredIn cx.now) memory.old }
    ensures { Remembers (WiredIn cx.now) memory.new }
{
    let s = f.state;
    if atoms::are_apart(s.up, s.dropped) {
        return false;
    }
    let base = above.state;
    let way = span(base, above.top, f.top);
    stop(cx, memory, way);
    true
}

// Goes down from the front until nothing is undecided or nothing completes the state, and learns from the stop: whether there was one.
fn dive(cx: &Context<'_>, memory: &mut [u64], filter: &[u64], front: Front) -> bool
    requires { Remembers (WiredIn cx.now) memory.old × FilteredIn cx.now front.state filter.now }
    ensures { Remembers (WiredIn cx.now) memory.new }
{
    let mut mine = copied(filter);
    let mut above = front;
    let mut f = front;
    while free_atoms(f.state) != 0 {
        above = f;
        f = descend(cx, memory, &mut mine, f);
    }
    learn_stop(cx, memory, above, f)
}

// Goes down again and again, as long as that ends in a stop.
pub fn dive_ahead(cx: &Context<'_>, memory: &mut [u64], filter: &[u64], front: Front)
    requires { Remembers (WiredIn cx.now) memory.old × FilteredIn cx.now front.state filter.now }
    ensures { Remembers (WiredIn cx.now) memory.new }
{
    if atoms::count(free_atoms(front.state)) < DEEP {
        return;
    }
    for _ in 0..WAYS {
        if !dive(cx, memory, filter, front) {
            return;
        }
    }
}
