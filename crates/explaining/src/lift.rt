// A nogood lifted over a trail: what a step added is replaced by its reason, step by step back to where the trail began. The trail is advice: any
// entries give a nogood.
ghost use Rattle.std.specs.Prelude.{◌≡◌, ◌≤◌, ◌<◌, length};
ghost use Rattle.learning.specs.Store.{MEMORY_WORDS, STEPS};
ghost use Rattle.learning.specs.Reason.{Heeds, Leads, Lifted};
ghost use Rattle.propagating.specs.Context.{WiredIn};

use crate::claim::Claim;
use crate::reasons::explain;
use learning::reason::{beyond, learn_once, replace};
use learning::store::STEPS;
use learning::trail::read_step;
use propagating::context::Context;
use propagating::step::decode;
use states::State;

// The steps of the trail from `from` up to `top`, and the state that they and a decision began from.
#[derive(Clone, Copy)]
pub struct Stretch {
    pub base: State,
    pub from: usize,
    pub top: usize,
}

// A stretch, put together.
pub fn span(base: State, from: usize, top: usize) -> Stretch
    ensures { result ≡ record { base = base; from = from; top = top } }
{
    Stretch { base, from, top }
}

// The pair with the reason of what step `at` of the trail added in place of that.
fn lift_over(cx: &Context<'_>, memory: &[u64], at: usize, n: State) -> State
    requires { (MEMORY_WORDS ≤ length memory.now) × (at < STEPS) }
    ensures { Leads (Heeds (WiredIn cx.now) memory.now) n result }
{
    let done = read_step(memory, at);
    let before = done.before;
    let goal = beyond(n, before);
    if atoms::union(goal.up, goal.dropped) == 0 {
        return n;
    }
    let claim = Claim {
        step: decode(done.step),
        part: before,
        goal,
        unfounded: 0,
    };
    let part = explain(cx, memory, claim, at);
    replace(n, before, part)
}

// The pair lifted over the stretch. On the way the first with at most one atom beyond the stretch's base is learnt.
pub fn lift(cx: &Context<'_>, memory: &mut [u64], stretch: Stretch, n: State) -> State
    requires { MEMORY_WORDS ≤ length memory.old }
    ensures { Lifted (WiredIn cx.now) n memory.old memory.new result }
{
    if STEPS < stretch.top {
        return n;
    }
    let base = stretch.base;
    let mut r = n;
    let mut learnt = learn_once(memory, base, r, r, false);
    for i in (stretch.from..stretch.top).rev() {
        let old = r;
        r = lift_over(cx, memory, i, old);
        learnt = learn_once(memory, base, old, r, learnt);
    }
    r
}

// The pair lifted over the stretch, unless nothing can complete it: then there is nothing to blame.
pub fn lift_unless_clash(cx: &Context<'_>, memory: &mut [u64], stretch: Stretch, n: State) -> State
    requires { MEMORY_WORDS ≤ length memory.old }
    ensures { Lifted (WiredIn cx.now) n memory.old memory.new result }
{
    if !atoms::are_apart(n.up, n.dropped) {
        return n;
    }
    lift(cx, memory, stretch, n)
}
