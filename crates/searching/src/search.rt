// The search over undecided atoms.
ghost use Rattle.answer_sets.specs.Memo.{Memo};
ghost use Rattle.learning.specs.Reason.{Remembers};
ghost use Rattle.searching.specs.Listing.{Ordered, Gathered, Grown};
ghost use Rattle.atoms.specs.Cuts.{CutOf};
ghost use Rattle.searching.specs.Node.{Explored};
ghost use Rattle.searching.specs.Outlook.{Leaves};
ghost use Rattle.propagating.specs.Context.{WiredIn, FilteredIn};
ghost use Rattle.propagating.specs.Job.{Belongs, Searchable};
ghost use Rattle.states.specs.Narrowing.{Wanted};

use crate::begin::begin;
use crate::enter::enter;
use crate::member::offer;
use crate::node::{Found, Node, below, is_done, joined, root};
use crate::outlook::{Outlook, phase_of};
use crate::spare::{all_of, take_pilots, with_inputs};
use crate::stop::{halt, hand_up};
use answer_sets::memo::blank_memo;
use joining::filter::{copied, full_filter};
use learning::store::empty_store;
use narrowing::loops::looped_atoms;
use propagating::Job;
use propagating::agenda::{every_step, with_tables};
use propagating::context::Context;
use propagating::desk::lay_out;
use propagating::front::Front;
use states::{State, lies_within, undecided};

// Adds the cut of every member that completes the node's state to the list; the filter has the entries that may be joined. It hands back the new count, or
// OVERFULL above LIST_WORDS, and a member that was met, or that there is none. The memory keeps what is learnt on the way, and the memo what the last subset
// test left. A node is open only where no rule of the unit is at a stop, so the search goes no further there. No member completes the pair that is handed
// back; where the first branch's pair lies within the state that it began from, the second branch has no member.
pub fn explore(
    cx: &Context<'_>,
    list: &mut [u64],
    memory: &mut [u64],
    memo: &mut [u64],
    filter: &[u64],
    node: Node,
) -> Found
    requires { Ordered list.old node.count × Remembers (WiredIn cx.now) memory.old
        × FilteredIn cx.now node.front.state filter.now
        × Leaves cx.now.rules.now cx.now.unit.rules node.front.state node.next × Memo cx.now.rules.now memo.old }
    ensures explored { Explored (WiredIn cx.now) node.shown
        node.front.state list.old node.count list.new memory.new result }
    ensures memo { Memo cx.now.rules.now memo.new }
{
    let next = node.next;
    match next {
        Outlook::Stop => halt(cx, memory, node),
        Outlook::Leaf => offer(cx, list, memory, memo, node),
        Outlook::Open(i) => {
            let front = node.front;
            let t = front.state;
            let phase = phase_of(cx, memory, t, i);
            let mut mine = copied(filter);
            let one = below(cx, node, node.count, i, phase);
            let here = enter(cx, memory, &mut mine, one);
            let first = explore(cx, list, memory, memo, &mine, here);
            if is_done(first, atoms::cut(undecided(t.up, t.dropped), node.shown)) {
                return first;
            }
            if lies_within(first.nogood, t) {
                return hand_up(cx, memory, node, first);
            }
            mine = copied(filter);
            let other = below(cx, node, first.count, i, !phase);
            let there = enter(cx, memory, &mut mine, other);
            let second = explore(cx, list, memory, memo, &mine, there);
            let both = joined(first, second, t, i, phase);
            hand_up(cx, memory, node, both)
        },
    }
}

// Puts the cut of every position that belongs there and completes the state into an empty list: its count, or OVERFULL where that is more than LIST_WORDS.
pub fn search(
    rules: &[u64],
    table: &[u64],
    counts: &[usize],
    heads: &[u64],
    unit: Job,
    shown: u64,
    list: &mut [u64],
    s: State,
) -> usize
    requires { Searchable rules.now table.now counts.now heads.now unit × Ordered list.old 0 }
    ensures { Gathered (Grown list.old 0 (CutOf shown
        (Wanted (Belongs rules.now table.now counts.now heads.now unit) s))) list.new result }
{
    let pilots = take_pilots(rules, heads, unit, s);
    let all = all_of(&pilots);
    let piloted = with_inputs(unit, all);
    let looped = looped_atoms(rules, unit.rules);
    let rest = every_step(piloted, looped);
    let agenda = with_tables(&pilots, rest);
    let desk = lay_out(rules, heads, &pilots, piloted, looped);
    let cx = Context {
        rules,
        table,
        counts,
        desk: &desk,
        unit: piloted,
    };
    let mut memory = empty_store();
    let mut memo = blank_memo();
    let mut filter = full_filter(counts);
    let opened = State {
        up: s.up,
        dropped: atoms::without(s.dropped, all),
    };
    let front = Front {
        state: opened,
        agenda,
        top: 0,
    };
    let f = begin(&cx, &mut memory, &mut filter, front);
    let start = root(atoms::without(shown, all), f, f.state);
    let node = enter(&cx, &mut memory, &mut filter, start);
    explore(&cx, list, &mut memory, &mut memo, &filter, node).count
}
