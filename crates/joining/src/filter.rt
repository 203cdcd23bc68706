// The filter: for each list that the search looks at the entries that still agree with the state, BLOCKS words to a list.
ghost use Rattle.std.specs.Prelude.{◌≡◌, ◌-◌, ◌*◌, ◌≤◌, ◌<◌, min, length};
ghost use Rattle.atoms.specs.Word.{ATOMS, below};
ghost use Rattle.plan.specs.Limits.{MAX_UNITS};
ghost use Rattle.states.specs.Narrowing.{Narrows};
ghost use Rattle.joining.specs.Joins.{Joinable};
ghost use Rattle.joining.specs.Filter.{BLOCKS, FILTER_WORDS, JoinsAll, Filtered, Full};

use crate::sift::{BLOCKS, join_step};
use atoms::ATOMS;
use plan::{LIST_WORDS, MAX_UNITS};
use states::State;

pub const FILTER_WORDS: usize = BLOCKS * MAX_UNITS;

// The bits of block k of a list with this many entries.
fn entries(count: usize, k: usize) -> u64
    requires { k < BLOCKS }
    ensures { result ≡ below (min ATOMS (count - ATOMS * k)) }
{
    atoms::first(ATOMS.min(count.saturating_sub(ATOMS * k)))
}

// The filter of all entries.
pub fn full_filter(counts: &[usize]) -> [u64; FILTER_WORDS]
    requires { MAX_UNITS ≤ length counts.now }
    ensures { Full counts.now result }
{
    let mut filter = [0u64; FILTER_WORDS];
    for (i, word) in filter.iter_mut().enumerate() {
        *word = entries(counts[i / BLOCKS], i % BLOCKS);
    }
    filter
}

// The filter once more, for a node that narrows its own.
pub fn copied(filter: &[u64]) -> [u64; FILTER_WORDS]
    requires { length filter.now ≡ FILTER_WORDS }
    ensures { result ≡ filter.now }
{
    let mut r = [0u64; FILTER_WORDS];
    r.copy_from_slice(filter);
    r
}

// The state after the list of predecessor v, if that is one of those looked at.
pub fn filter_step(
    table: &[u64],
    counts: &[usize],
    heads: &[u64],
    near: u64,
    v: usize,
    filter: &mut [u64],
    s: State,
) -> State
    requires { Joinable table.now counts.now heads.now near × (v < MAX_UNITS) × Filtered table.now counts.now heads.now near s filter.old }
    ensures narrows { Narrows (JoinsAll table.now counts.now heads.now near) s result }
    ensures filtered { Filtered table.now counts.now heads.now near result filter.new }
{
    if atoms::are_apart(near, atoms::single(v)) {
        return s;
    }
    join_step(table, LIST_WORDS * v, heads[v], filter, BLOCKS * v, s)
}
