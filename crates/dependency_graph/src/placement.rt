// Rows 10 and 11: rules in no unit, and rules with a head in several.
ghost use Rattle.std.specs.Prelude.{◌≡◌};
ghost use Rattle.plan.specs.Record.{Fitting};
ghost use Rattle.dependency_graph.specs.PlanUnits.{units_of};
ghost use Rattle.dependency_graph.specs.Offenders.{rule_in_no_unit, headed, repeated, headed_rule_in_several};

use crate::gather::where_holds;
use answer_sets::rule;
use plan::Plan;

// The rules that are in no unit.
pub fn rule_in_no_unit(plan: &Plan) -> u64
    requires { Fitting plan.now }
    ensures { result ≡ rule_in_no_unit (units_of plan.now) }
{
    let placed = atoms::union_of(&plan.units, plan.unit_count, atoms::first(plan.unit_count));
    atoms::without(atoms::first(plan.rule_count), placed)
}

// The rules with a head.
fn headed_rules(plan: &Plan) -> u64
    requires { Fitting plan.now }
    ensures { result ≡ headed (units_of plan.now) }
{
    where_holds(
        atoms::first(plan.rule_count),
        |r| rule::head(&plan.rules, r) != 0,
    )
}

// The rules that are in more than one unit.
fn repeated_rules(plan: &Plan) -> u64
    requires { Fitting plan.now }
    ensures { result ≡ repeated (units_of plan.now) }
{
    let mut once = 0;
    let mut twice = 0;
    for unit in &plan.units[..plan.unit_count] {
        twice = atoms::union(twice, atoms::cut(once, *unit));
        once = atoms::union(once, *unit);
    }
    twice
}

// The rules with a head that are in more than one unit.
pub fn headed_rule_in_several(plan: &Plan) -> u64
    requires { Fitting plan.now }
    ensures { result ≡ headed_rule_in_several (units_of plan.now) }
{
    atoms::cut(headed_rules(plan), repeated_rules(plan))
}
