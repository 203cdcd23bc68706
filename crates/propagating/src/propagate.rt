// Propagation: steps until none has anything new to say.
ghost use Rattle.std.specs.Prelude.{◌≤◌, ◌<◌, length};
ghost use Rattle.states.specs.Narrowing.{Narrows};
ghost use Rattle.learning.specs.Store.{MEMORY_WORDS, RING, AvoidsAll, Keeps, SamePairs};
ghost use Rattle.learning.specs.Reason.{Remembers};
ghost use Rattle.propagating.specs.Context.{WiredIn, FilteredIn};

use crate::agenda::{take, woken};
use crate::context::Context;
use crate::desk::{BACKERS, DESK_WORDS, INDEX, LINKED, PILOTS};
use crate::front::Front;
use crate::step::{PAIR_STEPS, Step, decode};
use joining::filter::filter_step;
use learning::nogood::refute;
use learning::store::{COPIES, RING, copy_pair, next_pair, read_pair};
use learning::trail::note_step;
use narrowing::founded_step::founded_step;
use narrowing::steps::{apply_rule, apply_support};
use parities::sum_step;
use pilots::table_step::table_step;
use states::State;

// The state after the step of this number; a list's step is one over the entries that the filter has. Pairs and unfounded atoms are on no agenda.
fn take_step(cx: &Context<'_>, filter: &mut [u64], step: usize, s: State) -> State
    requires { FilteredIn cx.now s filter.old }
    ensures narrows { Narrows (WiredIn cx.now) s result }
    ensures filtered { FilteredIn cx.now result filter.new }
{
    match decode(step) {
        Step::Rule(rule) => apply_rule(&cx.desk[LINKED..DESK_WORDS], cx.unit.rules, rule, s),
        Step::Support(atom) => apply_support(
            &cx.desk[LINKED..DESK_WORDS],
            cx.unit.rules,
            cx.unit.inputs,
            &cx.desk[BACKERS..INDEX],
            atom,
            s,
        ),
        Step::List(list) => filter_step(
            cx.table,
            cx.counts,
            cx.desk,
            cx.unit.nearest,
            list,
            filter,
            s,
        ),
        Step::Founded => founded_step(cx.rules, cx.unit.rules, cx.unit.inputs, s),
        Step::Table(t) => table_step(cx.rules, t, cx.pilot(t), s),
        Step::Sums => sum_step(cx.rules, &cx.desk[PILOTS..LINKED], cx.unit.rules, s),
        Step::Pair(_) => s,
        Step::Unfounded => s,
    }
}

// The front after the steps of the agenda and those that they wake, each noted in the trail.
fn run_agenda(cx: &Context<'_>, memory: &mut [u64], filter: &mut [u64], front: Front) -> Front
    requires { (MEMORY_WORDS ≤ length memory.old) × FilteredIn cx.now front.state filter.old }
    ensures narrows { Narrows (WiredIn cx.now) front.state result.state }
    ensures filtered { FilteredIn cx.now result.state filter.new }
    ensures same { SamePairs memory.old memory.new }
{
    let mut t = front.state;
    let mut left = front.agenda;
    let mut top = front.top;
    while let Some(taken) = take(left) {
        let u = take_step(cx, filter, taken.step, t);
        top = note_step(memory, top, taken.step, t, u);
        left = woken(&cx.desk[INDEX..PILOTS], taken.rest, t, u);
        t = u;
    }
    Front {
        state: t,
        agenda: left,
        top,
    }
}

// The step of the copy that is kept beside step `top` of the trail.
fn copy_step(top: usize) -> usize {
    if COPIES <= top {
        return PAIR_STEPS;
    }
    PAIR_STEPS + RING + top
}

// The front after pair i of the ring, of which a copy is kept beside the trail.
fn take_pair(cx: &Context<'_>, memory: &mut [u64], i: usize, f: Front) -> Front
    requires { (MEMORY_WORDS ≤ length memory.old) × (i < RING) }
    ensures narrows { Narrows (AvoidsAll memory.old) f.state result.state }
    ensures keeps { Keeps (AvoidsAll memory.old) memory.old memory.new }
{
    let pair = read_pair(memory, i);
    copy_pair(memory, f.top, pair);
    let t = refute(pair, f.state);
    let top = note_step(memory, f.top, copy_step(f.top), f.state, t);
    Front {
        state: t,
        agenda: woken(&cx.desk[INDEX..PILOTS], f.agenda, f.state, t),
        top,
    }
}

// The front after the steps of the agenda, the pairs of the ring one after the other, and all steps that they wake.
pub fn propagate(cx: &Context<'_>, memory: &mut [u64], filter: &mut [u64], front: Front) -> Front
    requires { Remembers (WiredIn cx.now) memory.old × FilteredIn cx.now front.state filter.old }
    ensures narrows { Narrows (WiredIn cx.now) front.state result.state }
    ensures filtered { FilteredIn cx.now result.state filter.new }
    ensures remembers { Remembers (WiredIn cx.now) memory.new }
{
    let mut f = front;
    let mut i = 0;
    loop {
        f = run_agenda(cx, memory, filter, f);
        i = next_pair(memory, i, f.state);
        if RING <= i {
            return f;
        }
        f = take_pair(cx, memory, i, f);
        i += 1;
    }
}
