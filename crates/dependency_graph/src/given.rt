// Row 16: rules with a given atom in the head.
ghost use Rattle.std.specs.Prelude.{◌≡◌};
ghost use Rattle.plan.specs.Record.{Fitting};
ghost use Rattle.dependency_graph.specs.PlanUnits.{units_of};
ghost use Rattle.dependency_graph.specs.Offenders.{given_in_head};

use crate::gather::where_holds;
use answer_sets::rule;
use plan::Plan;

// The rules that have a given atom in the head.
pub fn given_in_head(plan: &Plan) -> u64
    requires { Fitting plan.now }
    ensures { result ≡ given_in_head (units_of plan.now) }
{
    let given = plan.once.given.word;
    where_holds(
        atoms::first(plan.rule_count),
        |r| !atoms::are_apart(rule::head(&plan.rules, r), given),
    )
}
