// The exact join: whether a position agrees with the lists of the direct predecessors.
ghost use Rattle.std.specs.Prelude.{◌≡◌};
ghost use Rattle.joining.specs.Joins.{Joinable, joins as joins_of};

use crate::listed::contains;
use plan::LIST_WORDS;

// Whether the position cut to each direct predecessor's head atoms is in that one's list.
pub fn joins(
    table: &[u64],
    counts: &[usize],
    heads: &[u64],
    predecessors: u64,
    position: u64,
) -> bool
    requires { Joinable table.now counts.now heads.now predecessors }
    ensures { result ≡ joins_of table.now counts.now heads.now predecessors position }
{
    for v in atoms::each(predecessors) {
        let base = LIST_WORDS * v;
        let list = &table[base..base + counts[v]];
        if !contains(list, atoms::cut(position, heads[v])) {
            return false;
        }
    }
    true
}
