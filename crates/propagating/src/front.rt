// Where propagation stands, and how it goes on from there.
ghost use Rattle.std.specs.Prelude.{◌≡◌, ◌<◌, length};
ghost use Rattle.atoms.specs.Word.{ATOMS};
ghost use Rattle.states.specs.Narrowing.{branch_of};
ghost use Rattle.narrowing.specs.Stops.{NoStop};
ghost use Rattle.propagating.specs.Desk.{DESK_WORDS};

use crate::agenda::{Agenda, woken};
use crate::desk::{INDEX, PILOTS};
use crate::unit::Job;
use states::{State, decide};

// The state, the steps that may have something new to say of it, and where the next step is noted in the trail.
#[derive(Clone, Copy)]
pub struct Front {
    pub state: State,
    pub agenda: Agenda,
    pub top: usize,
}

// The front in another state, with the steps that it wakes on the agenda.
pub fn moved(desk: &[u64], f: Front, after: State) -> Front
    requires { length desk.now ≡ DESK_WORDS }
    ensures { result.state ≡ after }
{
    let none = Agenda {
        rules: 0,
        supports: 0,
        others: 0,
    };
    let before = f.state;
    Front {
        state: after,
        agenda: woken(&desk[INDEX..PILOTS], none, before, after),
        top: f.top,
    }
}

// The front with the atom in the phase: up, or dropped. It may be asked for only where no rule of the unit is at a stop: the search goes no further there.
pub fn branched(rules: &[u64], unit: Job, desk: &[u64], f: Front, i: usize, phase: bool) -> Front
    requires { NoStop rules.now unit.rules f.state × (length desk.now ≡ DESK_WORDS) × (i < ATOMS) }
    ensures { result.state ≡ branch_of f.state i phase }
{
    moved(desk, f, decide(f.state, i, phase))
}
