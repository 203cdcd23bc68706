// Which of a unit's direct predecessors' lists the search looks at.
ghost use Rattle.std.specs.Prelude.{◌^◌, ◌≤◌, ◌<◌, length};
ghost use Rattle.atoms.specs.Word.{◌⊆◌};
ghost use Rattle.atoms.specs.Bounded.{Decides};
ghost use Rattle.plan.specs.Limits.{MAX_UNITS};
ghost use Rattle.joining.specs.Nearest.{Covered};

use plan::MAX_UNITS;

// Whether all atoms of the word are among the head atoms of one of the units.
fn is_covered(heads: &[u64], units: u64, word: u64) -> bool
    requires { (MAX_UNITS ≤ length heads.now) × (units < 2 ^ MAX_UNITS) }
    ensures { Decides (Covered heads.now units word) result }
{
    for v in atoms::each(units) {
        if atoms::is_subset(word, heads[v]) {
            return true;
        }
    }
    false
}

// The units without this one where the head atoms of another cover its own.
fn without_covered(heads: &[u64], units: u64, v: usize) -> u64
    requires { (MAX_UNITS ≤ length heads.now) × (units < 2 ^ MAX_UNITS) × (v < MAX_UNITS) }
    ensures { result ⊆ units }
{
    let others = atoms::drop(units, v);
    if is_covered(heads, others, heads[v]) {
        return others;
    }
    units
}

// The predecessors whose head atoms no other one's cover. A unit that another one reaches is covered by it, and what its list
// tells of a position the other's list tells too: so these are enough for pruning, and the full test joins them all. Which ones
// are left out is free: all that holds of the word is that it names predecessors.
pub fn nearest(heads: &[u64], predecessors: u64) -> u64
    requires { MAX_UNITS ≤ length heads.now }
    ensures { result ⊆ predecessors }
{
    let mut near = atoms::cut(predecessors, atoms::first(MAX_UNITS));
    for v in atoms::each(near) {
        near = without_covered(heads, near, v);
    }
    near
}
