// Row 12: units on a cycle.
ghost use Rattle.std.specs.Prelude.{◌≡◌, ◌≤◌, length, get_or};
ghost use Rattle.atoms.specs.Word.{ATOMS, has};
ghost use Rattle.atoms.specs.Bounded.{word_below};
ghost use Rattle.plan.specs.Record.{Fitting};
ghost use Rattle.dependency_graph.specs.PlanUnits.{units_of};
ghost use Rattle.dependency_graph.specs.Offenders.{cycle as cycle_of};

use crate::gather::where_holds;
use crate::reach::fill_reach;
use plan::{MAX_UNITS, Plan};

// The numbers that are in their own word.
fn own_members(words: &[u64], n: usize) -> u64
    requires { (n ≤ ATOMS) × (n ≤ length words.now) }
    ensures { result ≡ word_below n (λ i. has (get_or words.now i 0) i) }
{
    where_holds(
        atoms::first(n),
        |i| !atoms::are_apart(words[i], atoms::single(i)),
    )
}

// The units on a cycle.
pub fn cycle(plan: &Plan) -> u64
    requires { Fitting plan.now }
    ensures { result ≡ cycle_of (units_of plan.now) }
{
    let mut reached = [0u64; MAX_UNITS];
    fill_reach(plan, &mut reached);
    own_members(&reached, plan.unit_count)
}
