// Head atoms of units: own, H(u) and Hp(u). Given atoms are in every H(u) and Hp(u).
ghost use Rattle.std.specs.Prelude.{◌≤◌, ◌<◌, length, get_or};
ghost use Rattle.atoms.specs.Word.{ATOMS, ◌∪◌};
ghost use Rattle.atoms.specs.Bounded.{union_in};
ghost use Rattle.plan.specs.Record.{Fitting};
ghost use Rattle.dependency_graph.specs.Heads.{own as own_of, heads as heads_from};
ghost use Rattle.dependency_graph.specs.PlanUnits.{units_of, HeadsOf};
ghost use Rattle.dependency_graph.specs.Filled.{FilledFirst};

use crate::reach::fill_reach;
use crate::rule_heads::rule_heads;
use plan::{MAX_UNITS, Plan};

// H(u) and Hp(u) of each unit u, zeros behind.
// Stays: an array of pairs would be no plainer, since joining and searching are lent `heads` as one slice, which would have to be copied out.
#[derive(Clone, Copy)]
pub struct HeadAtoms {
    pub heads: [u64; MAX_UNITS],
    pub inputs: [u64; MAX_UNITS],
}

// Fills the table with each unit's own head atoms.
fn fill_own(plan: &Plan, table: &mut [u64])
    requires { Fitting plan.now × (plan.now.unit_count ≤ length table.old) }
    ensures { FilledFirst plan.now.unit_count (own_of (units_of plan.now)) table.old table.new }
{
    for u in 0..plan.unit_count {
        table[u] = rule_heads(plan, plan.units[u]);
    }
}

// Fills the table with the given atoms and the union of the words whose numbers are in each unit's `which`.
fn fill_unions(given: u64, words: &[u64], which: &[u64], unit_count: usize, table: &mut [u64])
    requires { (unit_count ≤ ATOMS) × (unit_count ≤ length words.now) × (unit_count ≤ length which.now)
        × (unit_count ≤ length table.old) }
    ensures { FilledFirst unit_count (λ u. given ∪ union_in unit_count (get_or which.now u 0) (λ v. get_or words.now v 0))
        table.old table.new }
{
    for u in 0..unit_count {
        table[u] = atoms::union(given, atoms::union_of(words, unit_count, which[u]));
    }
}

// Adds to each word of the table the one of the same number.
fn add_words(words: &[u64], unit_count: usize, table: &mut [u64])
    requires { (unit_count ≤ length words.now) × (unit_count ≤ length table.old) }
    ensures { FilledFirst unit_count (λ u. get_or words.now u 0 ∪ get_or table.old u 0)
        table.old table.new }
{
    for u in 0..unit_count {
        table[u] = atoms::union(words[u], table[u]);
    }
}

// Fills the table with H(u) for each unit u.
fn fill_heads(plan: &Plan, table: &mut [u64])
    requires { Fitting plan.now × (plan.now.unit_count ≤ length table.old) }
    ensures { FilledFirst plan.now.unit_count (heads_from (units_of plan.now)) table.old table.new }
{
    let unit_count = plan.unit_count;
    let mut own = [0u64; MAX_UNITS];
    let mut reached = [0u64; MAX_UNITS];
    fill_own(plan, &mut own);
    fill_reach(plan, &mut reached);
    fill_unions(plan.once.given.word, &own, &reached, unit_count, table);
    add_words(&own, unit_count, table);
}

// H(u) and Hp(u) of each unit u of the plan.
pub fn head_atoms(plan: Plan) -> HeadAtoms
    requires { Fitting plan }
    ensures { HeadsOf plan result }
{
    let mut heads = [0u64; MAX_UNITS];
    let mut inputs = [0u64; MAX_UNITS];
    fill_heads(&plan, &mut heads);
    fill_unions(
        plan.once.given.word,
        &heads,
        &plan.predecessors,
        plan.unit_count,
        &mut inputs,
    );
    HeadAtoms { heads, inputs }
}
