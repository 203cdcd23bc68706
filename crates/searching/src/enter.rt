// A branch is entered.
ghost use Rattle.learning.specs.Reason.{Remembers};
ghost use Rattle.propagating.specs.Context.{WiredIn, FilteredIn};
ghost use Rattle.searching.specs.Entered.{Entered};

use crate::node::{Branch, Node};
use crate::outlook::outlook_of;
use explaining::lift::span;
use propagating::context::Context;
use propagating::propagate::propagate;

// The node of a branch: steps are taken until none has anything new to say, and then the state's outlook is found.
pub fn enter(cx: &Context<'_>, memory: &mut [u64], filter: &mut [u64], branch: Branch) -> Node
    requires { Remembers (WiredIn cx.now) memory.old × FilteredIn cx.now branch.front.state filter.old }
    ensures { Entered cx.now branch
        memory.new filter.new result }
{
    let front = branch.front;
    let f = propagate(cx, memory, filter, front);
    let s = f.state;
    let next = outlook_of(cx, memory, s, branch.shown);
    let base = branch.base;
    Node {
        shown: branch.shown,
        count: branch.count,
        way: span(base, front.top, f.top),
        front: f,
        next,
    }
}
