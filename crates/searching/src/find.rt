// One member that completes a state, or that there is none.
ghost use Rattle.learning.specs.Reason.{Remembers};
ghost use Rattle.states.specs.Narrowing.{both_of, Wanted};
ghost use Rattle.searching.specs.Witness.{Witnessed};
ghost use Rattle.propagating.specs.Context.{WiredIn};

use crate::enter::enter;
use crate::node::root;
use crate::search::explore;
use answer_sets::memo::blank_memo;
use joining::filter::full_filter;
use plan::LIST_WORDS;
use propagating::context::Context;
use propagating::front::{Front, moved};
use states::State;

// A member that completes the state at the start and this one, or that none does: what shows of the members is nothing, so that the first one
// ends the search. What is learnt on the way is of use for other states too.
pub fn find(cx: &Context<'_>, memory: &mut [u64], start: Front, s: State) -> Option<u64>
    requires { Remembers (WiredIn cx.now) memory.old }
    ensures witnessed { Witnessed (Wanted (WiredIn cx.now)
        (both_of start.state s)) result }
    ensures remembers { Remembers (WiredIn cx.now) memory.new }
{
    let mut list = [0u64; LIST_WORDS];
    let mut memo = blank_memo();
    let mut filter = full_filter(cx.counts);
    let base = start.state;
    let both = State {
        up: atoms::union(base.up, s.up),
        dropped: atoms::union(base.dropped, s.dropped),
    };
    let branch = root(0, moved(cx.desk, start, both), base);
    let node = enter(cx, memory, &mut filter, branch);
    let found = explore(cx, &mut list, memory, &mut memo, &filter, node);
    found.witness
}
