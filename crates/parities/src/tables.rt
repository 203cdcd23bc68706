// The tables that are parities and have a pilot.
ghost use Rattle.std.specs.Prelude.{◌<◌, ◌≤◌, length};
ghost use Rattle.atoms.specs.Bounded.{Decides};
ghost use Rattle.atoms.specs.Collected.{Collects};
ghost use Rattle.plan.specs.Limits.{MAX_TABLES as Limits-as-MAX_TABLES};
ghost use Rattle.parities.specs.Parity.{Parity, ParityTable, ParityAtom};

use answer_sets::uses::{table_inputs, table_truth};
use plan::{FIRST_RULE, MAX_INPUTS, MAX_TABLES};

// The rows of six inputs with an odd number of bits.
const ODD_ROWS: u64 = 0x6996_9669_9669_6996;

// Whether the truth word says if an odd number of the inputs is up, or if an even number is.
pub fn is_parity(inputs: u64, truth: u64) -> bool
    ensures { Decides (Parity inputs truth) result }
{
    let n = atoms::count(inputs);
    if MAX_INPUTS < n {
        return false;
    }
    let rows = atoms::first(atoms::single(n) as usize);
    if truth == atoms::cut(ODD_ROWS, rows) {
        return true;
    }
    truth == atoms::without(rows, ODD_ROWS)
}

// Whether table t is a parity with one pilot.
pub fn is_parity_table(rules: &[u64], pilots: &[u64], t: usize) -> bool
    requires { (Limits-as-MAX_TABLES ≤ length pilots.now) × (t < Limits-as-MAX_TABLES) }
    ensures { Decides (ParityTable rules.now pilots.now t) result }
{
    if rules.len() < FIRST_RULE {
        return false;
    }
    if atoms::count(pilots[t]) != 1 {
        return false;
    }
    is_parity(table_inputs(rules, t), table_truth(rules, t))
}

// The numbers of the tables that are parities with one pilot.
pub fn parity_tables(rules: &[u64], pilots: &[u64]) -> u64
    requires { Limits-as-MAX_TABLES ≤ length pilots.now }
    ensures { Collects (ParityTable rules.now pilots.now) result }
{
    let mut which = 0;
    for t in 0..MAX_TABLES {
        let one = atoms::single_if(is_parity_table(rules, pilots, t), t);
        which = atoms::union(which, one);
    }
    which
}

// Their inputs and pilots: all atoms that the step which sums them looks at.
pub fn parity_atoms(rules: &[u64], pilots: &[u64]) -> u64
    requires { Limits-as-MAX_TABLES ≤ length pilots.now }
    ensures { Collects (ParityAtom rules.now pilots.now) result }
{
    let mut all = 0;
    for t in atoms::each(parity_tables(rules, pilots)) {
        all = atoms::union(all, atoms::union(table_inputs(rules, t), pilots[t]));
    }
    all
}
