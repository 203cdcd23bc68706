// Stops: what is learnt where nothing completes the state, and where a full position is no member because of a smaller set; and pairs that are handed
// up from node to node.
ghost use Rattle.std.specs.Prelude.{◌≡◌, ◌≤◌, length, None};
ghost use Rattle.learning.specs.Nogood.{Nogood};
ghost use Rattle.learning.specs.Store.{MEMORY_WORDS};
ghost use Rattle.learning.specs.Reason.{Remembers};
ghost use Rattle.propagating.specs.Context.{WiredIn};
ghost use Rattle.searching.specs.Node.{HandedUp};

use crate::node::{Found, Node, found_of};
use explaining::claim::Claim;
use explaining::lift::{Stretch, lift_unless_clash, span};
use explaining::reasons::explain;
use learning::store::STEPS;
use learning::trail::{note_step, note_unfounded, read_step};
use narrowing::unfounded::drop_unfounded;
use propagating::context::Context;
use propagating::step::{UNFOUNDED_STEP, decode};
use states::{State, everything};

// The step before this one.
fn step_before(top: usize) -> usize {
    if top == 0 {
        return 0;
    }
    top - 1
}

// A part of the state before step `at` of the trail from which the step tells that nothing completes it; everything where it does not.
fn stop_reason(cx: &Context<'_>, memory: &[u64], at: usize) -> State
    requires { Remembers (WiredIn cx.now) memory.now }
    ensures { Nogood (WiredIn cx.now) result }
{
    if STEPS <= at {
        return everything();
    }
    let done = read_step(memory, at);
    let before = done.before;
    let goal = everything();
    let claim = Claim {
        step: decode(done.step),
        part: before,
        goal,
        unfounded: 0,
    };
    explain(cx, memory, claim, at)
}

// The pair that is left of a stop at the end of the stretch: the reason of its last step, lifted over those before.
pub fn stop(cx: &Context<'_>, memory: &mut [u64], way: Stretch) -> State
    requires { Remembers (WiredIn cx.now) memory.old }
    ensures remembers { Remembers (WiredIn cx.now) memory.new }
    ensures nogood { Nogood (WiredIn cx.now) result }
{
    let at = step_before(way.top);
    let n = stop_reason(cx, memory, at);
    let base = way.base;
    let rest = span(base, way.from, at);
    lift_unless_clash(cx, memory, rest, n)
}

// What is found at a node whose steps came to a stop: nothing, and the pair that is left of it.
pub fn halt(cx: &Context<'_>, memory: &mut [u64], node: Node) -> Found
    requires { Remembers (WiredIn cx.now) memory.old }
    ensures is { result ≡ record { count = node.count; nogood = result.nogood; witness = None } }
    ensures remembers { Remembers (WiredIn cx.now) memory.new }
    ensures nogood { Nogood (WiredIn cx.now) result.nogood }
{
    let way = node.way;
    let nogood = stop(cx, memory, way);
    found_of(node.count, nogood, None)
}

// The pair that is left at a node whose state is a full position and no member, where it may lose the atoms of x: their step is a stop.
pub fn reject(cx: &Context<'_>, memory: &mut [u64], node: Node, x: u64) -> State
    requires { Remembers (WiredIn cx.now) memory.old }
    ensures remembers { Remembers (WiredIn cx.now) memory.new }
    ensures nogood { Nogood (WiredIn cx.now) result }
{
    if x == 0 {
        return everything();
    }
    let f = node.front;
    let s = f.state;
    note_unfounded(memory, x);
    let t = drop_unfounded(cx.rules, cx.unit.rules, cx.unit.inputs, x, s);
    let top = note_step(memory, f.top, UNFOUNDED_STEP, s, t);
    let way = node.way;
    let base = way.base;
    let longer = span(base, way.from, top);
    stop(cx, memory, longer)
}

// What was found below a node, with its pair lifted over the steps that led from the decision above to the node.
pub fn hand_up(cx: &Context<'_>, memory: &mut [u64], node: Node, found: Found) -> Found
    requires { (MEMORY_WORDS ≤ length memory.old) }
    ensures { HandedUp (WiredIn cx.now) found
        memory.old memory.new result }
{
    let way = node.way;
    let n = found.nogood;
    let nogood = lift_unless_clash(cx, memory, way, n);
    let witness = found.witness;
    found_of(found.count, nogood, witness)
}
