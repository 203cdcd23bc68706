// The search for one position that satisfies rules, over the job in which every atom is an input (`ModelJob`). It goes by the same cases as `explore`,
// without list, filter and subset test.
ghost use Rattle.std.specs.Prelude.{true};
ghost use Rattle.answer_sets.specs.Lent.{Lent};
ghost use Rattle.learning.specs.Nogood.{Nogood};
ghost use Rattle.learning.specs.Reason.{Remembers};
ghost use Rattle.propagating.specs.Context.{WiredIn};
ghost use Rattle.searching.specs.Listing.{Offered};
ghost use Rattle.searching.specs.Models.{ModelJob};
ghost use Rattle.searching.specs.Node.{SoughtOf};
ghost use Rattle.searching.specs.Outlook.{Leaves};
ghost use Rattle.searching.specs.Witness.{Witnessed};

use crate::enter::enter;
use crate::node::{Found, Node, below, found_of, joined};
use crate::outlook::{Outlook, phase_of};
use crate::stop::{halt, hand_up};
use crate::witness::is_enough;
use answer_sets::reduct::all_satisfied;
use joining::filter::FILTER_WORDS;
use propagating::context::Context;
use states::{everything, lies_within};

// What is found at a node whose state is a full position: it, if it satisfies the rules.
fn settle(cx: &Context<'_>, node: Node) -> Found
    requires { ModelJob cx.now.desk.now cx.now.unit }
    ensures witnessed { Witnessed
        (Offered (WiredIn cx.now) node.front.state.up)
        result.witness }
    ensures nogood { Nogood (WiredIn cx.now) result.nogood }
{
    let f = node.front;
    let s = f.state;
    if all_satisfied(cx.rules, cx.unit.rules, s.up) {
        return found_of(node.count, everything(), Some(s.up));
    }
    found_of(node.count, everything(), None)
}

// A position that satisfies the rules and completes the node's state, or that there is none. What is learnt on the way is kept, and the pair that is
// handed back is completed by none.
// Stays: beside `explore`, since one search for both would take its list, memo, filter and end test as a type with five functions, which is no plainer; the
// edits first_branch_twice and first_branch_twice_for_a_subset name a line of each.
pub fn seek(cx: &Context<'_>, memory: &mut [u64], node: Node) -> Found
    requires { Remembers (WiredIn cx.now) memory.old × Leaves cx.now.rules.now cx.now.unit.rules node.front.state node.next
        × ModelJob cx.now.desk.now cx.now.unit }
    ensures { SoughtOf (WiredIn cx.now) 0
        node.front.state true memory.new result }
{
    let next = node.next;
    match next {
        Outlook::Stop => halt(cx, memory, node),
        Outlook::Leaf => settle(cx, node),
        Outlook::Open(i) => {
            let front = node.front;
            let t = front.state;
            let phase = phase_of(cx, memory, t, i);
            let mut filter = [0u64; FILTER_WORDS];
            let one = below(cx, node, node.count, i, phase);
            let here = enter(cx, memory, &mut filter, one);
            let first = seek(cx, memory, here);
            if is_enough(first.witness, 0) {
                return first;
            }
            if lies_within(first.nogood, t) {
                return hand_up(cx, memory, node, first);
            }
            filter = [0u64; FILTER_WORDS];
            let other = below(cx, node, node.count, i, !phase);
            let there = enter(cx, memory, &mut filter, other);
            let second = seek(cx, memory, there);
            let both = joined(first, second, t, i, phase);
            hand_up(cx, memory, node, both)
        },
    }
}
