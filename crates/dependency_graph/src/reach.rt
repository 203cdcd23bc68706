// Reach, by Warshall's recursion over the highest middle unit.
ghost use Rattle.std.specs.Prelude.{◌≡◌, ◌≤◌, ◌<◌, length, get_or};
ghost use Rattle.atoms.specs.Word.{ATOMS};
ghost use Rattle.plan.specs.Record.{Fitting};
ghost use Rattle.dependency_graph.specs.Heads.{reach_via, reach as reach_of, through as through_unit};
ghost use Rattle.dependency_graph.specs.PlanUnits.{units_of};
ghost use Rattle.dependency_graph.specs.Filled.{FilledFirst};

use plan::Plan;

// What a unit reaches once its paths may lead through unit k, which reaches `middle`.
fn through(reached: u64, k: usize, middle: u64) -> u64
    requires { k < ATOMS }
    ensures { result ≡ through_unit reached k middle }
{
    if atoms::are_apart(reached, atoms::single(k)) {
        return reached;
    }
    atoms::union(reached, middle)
}

// Fills the table with each unit's direct predecessors.
fn fill_direct(plan: &Plan, table: &mut [u64])
    requires { Fitting plan.now × (plan.now.unit_count ≤ length table.old) }
    ensures { FilledFirst plan.now.unit_count (reach_via (units_of plan.now) 0) table.old table.new }
{
    let all = atoms::first(plan.unit_count);
    for u in 0..plan.unit_count {
        table[u] = atoms::cut(plan.predecessors[u], all);
    }
}

// Lets the paths in the table lead through unit k.
fn open_middle(unit_count: usize, k: usize, table: &mut [u64])
    requires { (unit_count ≤ ATOMS) × (k < unit_count) × (unit_count ≤ length table.old) }
    ensures { FilledFirst unit_count (λ u. through_unit (get_or table.old u 0) k (get_or table.old k 0))
        table.old table.new }
{
    let middle = table[k];
    for u in 0..unit_count {
        table[u] = through(table[u], k, middle);
    }
}

// Fills the table with what each unit reaches.
pub fn fill_reach(plan: &Plan, table: &mut [u64])
    requires { Fitting plan.now × (plan.now.unit_count ≤ length table.old) }
    ensures { FilledFirst plan.now.unit_count (reach_of (units_of plan.now)) table.old table.new }
{
    fill_direct(plan, table);
    for k in 0..plan.unit_count {
        open_middle(plan.unit_count, k, table);
    }
}
