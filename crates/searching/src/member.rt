// One position and the list of a unit.
ghost use Rattle.atoms.specs.Bounded.{Decides};
ghost use Rattle.answer_sets.specs.Memo.{Memo};
ghost use Rattle.learning.specs.Nogood.{Nogood};
ghost use Rattle.learning.specs.Reason.{Remembers};
ghost use Rattle.searching.specs.Listing.{Ordered, Gathered, Grown, Offered};
ghost use Rattle.atoms.specs.Cuts.{CutOf};
ghost use Rattle.searching.specs.Witness.{Witnessed};
ghost use Rattle.propagating.specs.Context.{WiredIn};
ghost use Rattle.propagating.specs.Job.{Belongs};

use crate::listing::insert;
use crate::node::{Found, Node, found_of};
use crate::stop::reject;
use crate::subsets::judge_leaf;
use answer_sets::Judged;
use joining::join::joins;
use pilots::follow::follow_all;
use propagating::context::Context;
use propagating::desk::{LINKED, PILOTS};
use states::everything;

// Whether the position belongs to the unit's list.
fn belongs(cx: &Context<'_>, memo: &mut [u64], position: u64) -> Judged
    requires { Memo cx.now.rules.now memo.old }
    ensures decides { Decides (Belongs cx.now.rules.now cx.now.table.now cx.now.counts.now cx.now.desk.now cx.now.unit position)
        result.answers }
    ensures memo { Memo cx.now.rules.now memo.new }
{
    if !joins(cx.table, cx.counts, cx.desk, cx.unit.predecessors, position) {
        return Judged {
            answers: false,
            smaller: position,
        };
    }
    judge_leaf(
        cx.rules,
        cx.unit.rules,
        atoms::cut(position, cx.unit.inputs),
        position,
        memo,
    )
}

// Whether the position is wired: its pilots follow their tables, and it belongs to the unit's list.
fn is_wired(cx: &Context<'_>, memo: &mut [u64], position: u64) -> Judged
    requires { Memo cx.now.rules.now memo.old }
    ensures decides { Decides (WiredIn cx.now position)
        result.answers }
    ensures memo { Memo cx.now.rules.now memo.new }
{
    if !follow_all(cx.rules, &cx.desk[PILOTS..LINKED], position) {
        return Judged {
            answers: false,
            smaller: position,
        };
    }
    belongs(cx, memo, position)
}

// Adds the cut of the full position at this node to the list if it is wired: the new count, or OVERFULL where there is no room; and the position,
// if it does. Else the pair is one that the position completes, if a smaller set shows it.
pub fn offer(
    cx: &Context<'_>,
    list: &mut [u64],
    memory: &mut [u64],
    memo: &mut [u64],
    node: Node,
) -> Found
    requires { Ordered list.old node.count
        × Remembers (WiredIn cx.now) memory.old × Memo cx.now.rules.now memo.old }
    ensures memo { Memo cx.now.rules.now memo.new }
    ensures gathered { Gathered (Grown list.old node.count (CutOf node.shown
        (Offered (WiredIn cx.now) node.front.state.up)))
        list.new result.count }
    ensures witnessed { Witnessed
        (Offered (WiredIn cx.now) node.front.state.up)
        result.witness }
    ensures remembers { Remembers (WiredIn cx.now) memory.new }
    ensures nogood { Nogood (WiredIn cx.now) result.nogood }
{
    let f = node.front;
    let s = f.state;
    let judged = is_wired(cx, memo, s.up);
    if !judged.answers {
        let x = atoms::without(s.up, judged.smaller);
        let nogood = reject(cx, memory, node, x);
        return found_of(node.count, nogood, None);
    }
    let after = insert(list, node.count, atoms::cut(s.up, node.shown));
    found_of(after, everything(), Some(s.up))
}
