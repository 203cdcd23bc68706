// The check of the graph conditions: the first row that fits, with its lowest rule or unit.
ghost use Rattle.std.specs.Prelude.{◌≡◌};
ghost use Rattle.plan.specs.Record.{Fitting};
ghost use Rattle.dependency_graph.specs.PlanUnits.{units_of};
ghost use Rattle.dependency_graph.specs.Check.{verdict};

use crate::cycle::cycle;
use crate::dependences::{monotonic_unseen, nonmonotonic_unseen};
use crate::given::given_in_head;
use crate::placement::{headed_rule_in_several, rule_in_no_unit};
use plan::{Fault, Plan};

// The first graph condition that is broken, with its lowest rule or unit, or that all hold.
pub fn check_graph(plan: Plan) -> Result<(), Fault>
    requires { Fitting plan }
    ensures { result ≡ verdict (units_of plan) }
{
    let given = given_in_head(&plan);
    if given != 0 {
        return Err(Fault::GivenInHead(atoms::lowest(given)));
    }
    let in_none = rule_in_no_unit(&plan);
    if in_none != 0 {
        return Err(Fault::RuleInNoUnit(atoms::lowest(in_none)));
    }
    let in_several = headed_rule_in_several(&plan);
    if in_several != 0 {
        return Err(Fault::HeadedRuleInSeveral(atoms::lowest(in_several)));
    }
    let cyclic = cycle(&plan);
    if cyclic != 0 {
        return Err(Fault::Cycle(atoms::lowest(cyclic)));
    }
    let nonmonotonic = nonmonotonic_unseen(&plan);
    if nonmonotonic != 0 {
        return Err(Fault::NonmonotonicUnseen(atoms::lowest(nonmonotonic)));
    }
    let monotonic = monotonic_unseen(&plan);
    if monotonic != 0 {
        return Err(Fault::MonotonicUnseen(atoms::lowest(monotonic)));
    }
    Ok(())
}
