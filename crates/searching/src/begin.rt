// Where a search begins.
ghost use Rattle.states.specs.Narrowing.{Narrows};
ghost use Rattle.learning.specs.Reason.{Remembers};
ghost use Rattle.propagating.specs.Context.{WiredIn, FilteredIn};

use crate::dive::dive_ahead;
use propagating::context::Context;
use propagating::front::Front;
use propagating::propagate::propagate;

// What every search and every question begins with: the steps on the agenda are taken, and a few ways down are learnt from.
pub fn begin(cx: &Context<'_>, memory: &mut [u64], filter: &mut [u64], front: Front) -> Front
    requires { Remembers (WiredIn cx.now) memory.old × FilteredIn cx.now front.state filter.old }
    ensures narrows { Narrows (WiredIn cx.now) front.state result.state }
    ensures filtered { FilteredIn cx.now result.state filter.new }
    ensures remembers { Remembers (WiredIn cx.now) memory.new }
{
    let f = propagate(cx, memory, filter, front);
    dive_ahead(cx, memory, filter, f);
    f
}
