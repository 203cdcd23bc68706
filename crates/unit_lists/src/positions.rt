// The public listing function: the table, reading, the graph and unit work, and the first fault counts.
ghost use Rattle.std.specs.Prelude.{◌≤◌, length};
ghost use Rattle.plan.specs.Limits.{TABLE_WORDS};
ghost use Rattle.plan.specs.Record.{Fitting};
ghost use Rattle.dependency_graph.specs.PlanUnits.{units_of};
ghost use Rattle.splitting.specs.UnitList.{Clean};
ghost use Rattle.demands.specs.Answer.{after_graph, answer};
ghost use Rattle.demands.specs.Handed.{Handed};
ghost use Rattle.demands.specs.Promised.{Promised};

use crate::work::unit_work;
use demands::listing::{Listing, refuse};
use dependency_graph::check::check_graph;
use plan::{Fault, Plan, TABLE_WORDS};
use reading::read_plan;

// The graph place and, where it passes, unit work on a read plan.
fn list_read_plan(plan: Plan, table: &mut [u64]) -> Listing
    requires { Fitting plan × Clean (units_of plan) × (TABLE_WORDS ≤ length table.old) }
    ensures { Handed (after_graph (units_of plan) table.old) result table.new }
{
    match check_graph(plan) {
        Ok(()) => unit_work(plan, table),
        Err(fault) => refuse(fault),
    }
}

// Lists every settled position of the plan in the lent table, or refuses it by the first fault in document 01's order.
pub fn list_positions(plan: &[u8], table: &mut [u64]) -> Listing
    ensures answered { Handed (answer plan.now table.old) result table.new }
    ensures promised { Promised plan.now table.old result table.new }
{
    let length = table.len();
    if length < TABLE_WORDS {
        return refuse(Fault::TableShort(length));
    }
    match read_plan(plan) {
        Ok(read) => list_read_plan(read, table),
        Err(fault) => refuse(fault),
    }
}
