// What the steps of a unit look at, in one struct.
ghost use Rattle.std.specs.Prelude.{◌≡◌, ◌<◌, ◌^◌, length, get_or};
ghost use Rattle.atoms.specs.Word.{ATOMS};
ghost use Rattle.plan.specs.Limits.{MAX_TABLES};
ghost use Rattle.narrowing.specs.Backers.{Backers};
ghost use Rattle.pilots.specs.Linked.{Linked, PilotsWithin};
ghost use Rattle.propagating.specs.Job.{Searchable};
ghost use Rattle.propagating.specs.Desk.{DESK_WORDS, backers_of, linked_of, pilots_of};

use crate::desk::PILOTS;
use crate::unit::Job;

// The rules, the lists of the unit's predecessors with their counts, its desk, and what is asked of it. All that `Prepared` says of them is known; that the
// rules are linked stands truncated, since the uses that pilots stand for are not unique.
#[derive(Clone, Copy)]
pub struct Context<'a> {
    pub rules: &'a [u64],
    pub table: &'a [u64],
    pub counts: &'a [usize],
    pub desk: &'a [u64],
    pub unit: Job,
    pub ghost numbered: { unit.rules < 2 ^ ATOMS },
    pub ghost searchable: { Searchable rules.now table.now counts.now desk.now unit },
    pub ghost backed: { Backers (linked_of desk.now) unit.rules (backers_of desk.now) },
    pub ghost linked: { ∥ Linked rules.now (pilots_of desk.now) unit.rules (linked_of desk.now) ∥₁ },
    pub ghost within: { PilotsWithin (pilots_of desk.now) unit.inputs },
    pub ghost long: { length desk.now ≡ DESK_WORDS },
}

impl Context<'_> {
    // The pilot of a table, as the desk has it.
    pub fn pilot(&self, t: usize) -> u64
        requires { t < MAX_TABLES }
        ensures { result ≡ get_or (pilots_of self.now.desk.now) t 0 }
    {
        self.desk[PILOTS + t]
    }
}
