// The working order: lowest number first among the units whose predecessors are done.
ghost use Rattle.std.specs.Prelude.{◌≡◌, ◌<◌, MatchOption};
ghost use Rattle.plan.specs.Record.{Fitting};
ghost use Rattle.dependency_graph.specs.Order.{ready, next_unit};
ghost use Rattle.dependency_graph.specs.PlanUnits.{units_of};

use plan::Plan;

// Whether unit u is not done and its predecessors are.
fn is_ready(plan: &Plan, done: u64, u: usize) -> bool
    requires { Fitting plan.now × (u < plan.now.unit_count) }
    ensures { result ≡ ready (units_of plan.now) done u }
{
    if !atoms::are_apart(done, atoms::single(u)) {
        return false;
    }
    atoms::is_subset(
        atoms::cut(plan.predecessors[u], atoms::first(plan.unit_count)),
        done,
    )
}

// The unit that is worked next, or none where none is ready.
pub fn next_unit(plan: Plan, done: u64) -> Option<usize>
    requires { Fitting plan }
    ensures { MatchOption result (next_unit (units_of plan) done ≡ plan.unit_count)
        (λ u. (u < plan.unit_count) × (u ≡ next_unit (units_of plan) done)) }
{
    (0..plan.unit_count).find(|u| is_ready(&plan, done, *u))
}
