// The subset test that learns. What takes the plain test of `answer_sets` more than a few branchings is asked of a search over the job in which every
// atom is an input: of one atom after the other, whether a set without it satisfies the rules; what is learnt serves all these questions.
ghost use Rattle.std.specs.Prelude.{◌≡◌, ◌<◌};
ghost use Rattle.atoms.specs.Word.{ATOMS};
ghost use Rattle.answer_sets.specs.Lent.{lent, Lent};
ghost use Rattle.answer_sets.specs.Memo.{Memo};
ghost use Rattle.answer_sets.specs.SubsetTest.{Confines, Finds};
ghost use Rattle.answer_sets.specs.Test.{answer_set, RefutedBy};
ghost use Rattle.states.specs.Narrowing.{Narrows, Wanted, branch_of};
ghost use Rattle.learning.specs.Reason.{Remembers};
ghost use Rattle.propagating.specs.Context.{WiredIn};
ghost use Rattle.searching.specs.Models.{ModelJob, models_of, Asks};
ghost use Rattle.searching.specs.Witness.{Witnessed};

use crate::enter::enter;
use crate::node::root;
use crate::seek::seek;
use answer_sets::smaller::{Smaller, UNBOUNDED, none_smaller, some_between};
use answer_sets::{Judged, judge_set_by};
use atoms::EVERY_ATOM;
use joining::filter::FILTER_WORDS;
use learning::store::empty_store;
use plan::{MAX_TABLES, MAX_UNITS};
use propagating::Job;
use propagating::agenda::every_step;
use propagating::context::Context;
use propagating::desk::lay_out;
use propagating::front::Front;
use propagating::propagate::propagate;
use states::{State, decide};

// So many branchings has the plain test.
const FEW: u64 = 16;

// What is answered to a question for an atom: a set without it, or what is known of all sets where there is none.
#[derive(Clone, Copy)]
pub enum WithoutAtom {
    Set(u64),
    Known(State),
}

// The job: to satisfy these rules.
fn models_of(which: u64) -> Job
    ensures { result ≡ models_of which }
{
    Job {
        rules: which,
        inputs: EVERY_ATOM,
        predecessors: 0,
        nearest: 0,
    }
}

// Every step is to be taken from this state.
fn front_of(job: Job, s: State) -> Front
    ensures { result.state ≡ s }
{
    let agenda = every_step(job, 0);
    Front {
        state: s,
        agenda,
        top: 0,
    }
}

// A position that satisfies the rules and completes the state, or that there is none.
fn find_model(cx: &Context<'_>, memory: &mut [u64], s: State) -> Option<u64>
    requires { ModelJob cx.now.desk.now cx.now.unit × Remembers (WiredIn cx.now) memory.old }
    ensures witnessed { Witnessed (Wanted (WiredIn cx.now) s) result }
    ensures remembers { Remembers (WiredIn cx.now) memory.new }
{
    let mut filter = [0u64; FILTER_WORDS];
    let branch = root(0, front_of(cx.unit, s), s);
    let node = enter(cx, memory, &mut filter, branch);
    let found = seek(cx, memory, node);
    found.witness
}

// What the steps tell of the positions that satisfy the rules and complete the state.
fn settled(cx: &Context<'_>, memory: &mut [u64], s: State) -> State
    requires { ModelJob cx.now.desk.now cx.now.unit × Remembers (WiredIn cx.now) memory.old }
    ensures narrows { Narrows (WiredIn cx.now) s result }
    ensures remembers { Remembers (WiredIn cx.now) memory.new }
{
    let mut filter = [0u64; FILTER_WORDS];
    let front = front_of(cx.unit, s);
    let f = propagate(cx, memory, &mut filter, front);
    f.state
}

// Whether some position without the atom satisfies the rules and completes the state, and one that does; else what then is known of all that complete it.
fn ask_without(cx: &Context<'_>, memory: &mut [u64], t: State, i: usize) -> WithoutAtom
    requires { ModelJob cx.now.desk.now cx.now.unit × Remembers (WiredIn cx.now) memory.old × (i < ATOMS) }
    ensures asks { Asks (WiredIn cx.now) t i result }
    ensures remembers { Remembers (WiredIn cx.now) memory.new }
{
    let lowered = decide(t, i, false);
    match find_model(cx, memory, lowered) {
        Some(m) => WithoutAtom::Set(m),
        None => {
            let raised = decide(t, i, true);
            WithoutAtom::Known(settled(cx, memory, raised))
        },
    }
}

// Whether some completion of the state is a proper subset of the position and satisfies the rules, and one that does: each atom of the position that is not
// known to be in all of them is asked for.
fn seek_each(cx: &Context<'_>, memory: &mut [u64], position: u64, s: State) -> Smaller
    requires { ModelJob cx.now.desk.now cx.now.unit × Remembers (WiredIn cx.now) memory.old × Confines position s.dropped }
    ensures { Finds (lent cx.now.rules.now) cx.now.unit.rules position s result.found result.set }
{
    let mut t = s;
    for i in atoms::each(position) {
        if atoms::is_subset(atoms::single(i), t.up) {
            continue;
        }
        match ask_without(cx, memory, t, i) {
            WithoutAtom::Set(set) => {
                return Smaller {
                    found: true,
                    set,
                    left: UNBOUNDED,
                };
            },
            WithoutAtom::Known(known) => t = known,
        }
    }
    none_smaller(UNBOUNDED)
}

// The same for the rules of a word, with nothing learnt yet.
fn seek_between(rules: &[u64], which: u64, position: u64, s: State) -> Smaller
    requires { Lent rules.now which × Confines position s.dropped }
    ensures { Finds (lent rules.now) which position s result.found result.set }
{
    let unit = models_of(which);
    let table = [0u64; 0];
    let counts = [0usize; MAX_UNITS];
    let heads = [0u64; MAX_UNITS];
    let pilots = [0u64; MAX_TABLES];
    let desk = lay_out(rules, &heads, &pilots, unit, 0);
    let cx = Context {
        rules,
        table: &table,
        counts: &counts,
        desk: &desk,
        unit,
    };
    seek_each(&cx, &mut empty_store(), position, s)
}

// The same, by the plain test, or where that takes more than a few branchings by the one that learns.
fn smaller_between(rules: &[u64], which: u64, position: u64, s: State) -> Smaller
    requires { Lent rules.now which × Confines position s.dropped }
    ensures { Finds (lent rules.now) which position s result.found result.set }
{
    let plain = some_between(rules, which, position, s, FEW);
    if plain.left != 0 {
        return plain;
    }
    seek_between(rules, which, position, s)
}

// Whether the position is an answer set of the rules numbered in `which` with the facts added, and what shows that it is none: as `answer_sets` has it,
// by the subset test that learns.
pub fn judge_leaf(rules: &[u64], which: u64, facts: u64, position: u64, memo: &mut [u64]) -> Judged
    requires { Lent rules.now which × Memo rules.now memo.old }
    ensures answers { result.answers ≡ answer_set (lent rules.now) which facts position }
    ensures refuted { RefutedBy (lent rules.now) which facts position result.answers result.smaller }
    ensures memo { Memo rules.now memo.new }
{
    judge_set_by(rules, which, facts, position, memo, |left, s| {
        smaller_between(rules, left, position, s)
    })
}
