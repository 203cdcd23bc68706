// The head atoms of several rules together.
ghost use Rattle.std.specs.Prelude.{◌≡◌};
ghost use Rattle.plan.specs.Record.{Fitting};
ghost use Rattle.dependency_graph.specs.Heads.{rule_heads};
ghost use Rattle.dependency_graph.specs.PlanUnits.{units_of};

use crate::gather::union_over;
use answer_sets::rule;
use plan::Plan;

// The head atoms of the plan's rules whose numbers are in `which`.
pub fn rule_heads(plan: &Plan, which: u64) -> u64
    requires { Fitting plan.now }
    ensures { result ≡ rule_heads (units_of plan.now) which }
{
    let rules = atoms::cut(which, atoms::first(plan.rule_count));
    union_over(rules, |r| rule::head(&plan.rules, r))
}
