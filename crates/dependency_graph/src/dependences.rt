// Rows 13 and 14: rules that depend on a rule that a unit of theirs does not see.
ghost use Rattle.std.specs.Prelude.{◌≡◌, ◌<◌};
ghost use Rattle.plan.specs.Record.{Fitting};
ghost use Rattle.dependency_graph.specs.PlanUnits.{units_of};
ghost use Rattle.dependency_graph.specs.Offenders.{unseen_heads, nonmonotonic_unseen_in, nonmonotonic_unseen, monotonic_seen_in, monotonic_unseen};

use crate::gather::{union_over, where_holds};
use crate::rule_heads::rule_heads;
use answer_sets::rule;
use plan::Plan;

// The head atoms of the rules that unit u neither holds nor has an edge to the unit of.
fn unseen_heads(plan: &Plan, u: usize) -> u64
    requires { Fitting plan.now × (u < plan.now.unit_count) }
    ensures { result ≡ unseen_heads (units_of plan.now) u }
{
    let direct = plan.predecessors[u];
    let beside = atoms::union_of(&plan.units, plan.unit_count, direct);
    let seen = atoms::union(plan.units[u], beside);
    rule_heads(plan, atoms::without(atoms::first(plan.rule_count), seen))
}

// The rules of unit u that look at an unseen head atom.
fn nonmonotonic_unseen_in(plan: &Plan, u: usize) -> u64
    requires { Fitting plan.now × (u < plan.now.unit_count) }
    ensures { result ≡ nonmonotonic_unseen_in (units_of plan.now) u }
{
    let unseen = unseen_heads(plan, u);
    let held = atoms::cut(plan.units[u], atoms::first(plan.rule_count));
    where_holds(
        held,
        |r| !atoms::are_apart(rule::looks(&plan.rules, r), unseen),
    )
}

// The rules of unit u with no positive and no head atom among the unseen head atoms.
fn monotonic_seen_in(plan: &Plan, u: usize) -> u64
    requires { Fitting plan.now × (u < plan.now.unit_count) }
    ensures { result ≡ monotonic_seen_in (units_of plan.now) u }
{
    let unseen = unseen_heads(plan, u);
    let held = atoms::cut(plan.units[u], atoms::first(plan.rule_count));
    where_holds(held, |r| {
        let needed = atoms::union(
            rule::positive_body(&plan.rules, r),
            rule::head(&plan.rules, r),
        );
        atoms::are_apart(needed, unseen)
    })
}

// The rules that depend nonmonotonically on a rule that some unit with them does not see.
pub fn nonmonotonic_unseen(plan: &Plan) -> u64
    requires { Fitting plan.now }
    ensures { result ≡ nonmonotonic_unseen (units_of plan.now) }
{
    union_over(
        atoms::first(plan.unit_count),
        |u| nonmonotonic_unseen_in(plan, u),
    )
}

// The rules whose monotonic dependences no unit sees together.
pub fn monotonic_unseen(plan: &Plan) -> u64
    requires { Fitting plan.now }
    ensures { result ≡ monotonic_unseen (units_of plan.now) }
{
    let seen = union_over(
        atoms::first(plan.unit_count),
        |u| monotonic_seen_in(plan, u),
    );
    atoms::without(atoms::first(plan.rule_count), seen)
}
