// One predecessor's list: atoms that every position whose cut is in the list must have or lack, by the state and the entries that still agree with it. An
// entry that does not agree leaves the filter for good.
ghost use Rattle.std.specs.Prelude.{◌+◌, ◌≤◌, ◌<◌, length};
ghost use Rattle.atoms.specs.Word.{ATOMS};
ghost use Rattle.plan.specs.Limits.{LIST_WORDS};
ghost use Rattle.states.specs.Narrowing.{Narrows};
ghost use Rattle.joining.specs.Filter.{BLOCKS, EntrySifted, BlockSifted, ListSifted, Picked, Refined};

use atoms::ATOMS;
use plan::LIST_WORDS;
use states::{State, clash};

// A list's filter has a bit for each of its entries, in this many words.
pub const BLOCKS: usize = LIST_WORDS / ATOMS;

// Of the entries that agree: the atoms in all of them and those in some; and the bits of one word that are kept.
#[derive(Clone, Copy)]
pub struct Sifted {
    pub all: u64,
    pub some: u64,
    pub kept: u64,
}

// What is known with entry i, which agrees where of the decided atoms it has just those that are up, and else leaves the filter.
fn sift_entry(entry: u64, i: usize, up: u64, decided: u64, found: Sifted) -> Sifted
    requires { i < ATOMS }
    ensures { EntrySifted up decided entry i found result }
{
    if atoms::cut(entry, decided) != up {
        return Sifted {
            kept: atoms::drop(found.kept, i),
            ..found
        };
    }
    Sifted {
        all: atoms::cut(found.all, entry),
        some: atoms::union(found.some, entry),
        ..found
    }
}

// The same for the entries of a word of the filter, which stand from `at` on.
fn sift_block(words: &[u64], at: usize, bits: u64, up: u64, decided: u64, found: Sifted) -> Sifted
    requires { at + ATOMS ≤ length words.now }
    ensures { BlockSifted words.now at bits up decided found result }
{
    let mut r = Sifted {
        kept: bits,
        ..found
    };
    for i in atoms::each(bits) {
        r = sift_entry(words[at + i], i, up, decided, r);
    }
    r
}

// The same for a whole list, whose entries stand from `base` on and whose filter from `at` on.
// Stays: the definitions Picked, Refined and Filtered go by places in the whole table and the whole filter.
fn sift_list(
    words: &[u64],
    base: usize,
    up: u64,
    decided: u64,
    filter: &mut [u64],
    at: usize,
) -> Sifted
    requires { (base + LIST_WORDS ≤ length words.now) × (at + BLOCKS ≤ length filter.old) }
    ensures { ListSifted words.now base up decided at filter.old filter.new result }
{
    let mut found = Sifted {
        all: atoms::first(ATOMS),
        some: 0,
        kept: 0,
    };
    for k in 0..BLOCKS {
        found = sift_block(words, base + ATOMS * k, filter[at + k], up, decided, found);
        filter[at + k] = found.kept;
    }
    found
}

// The state after one list: what all agreeing entries have goes up, what none has is dropped. Where no entry agrees, `all` has every atom and `some`
// none.
pub fn join_step(
    words: &[u64],
    base: usize,
    heads: u64,
    filter: &mut [u64],
    at: usize,
    s: State,
) -> State
    requires { (base + LIST_WORDS ≤ length words.now) × (at + BLOCKS ≤ length filter.old) }
    ensures narrows { Narrows (Picked words.now base heads filter.old at) s result }
    ensures refined { Refined words.now base heads at s filter.old filter.new }
{
    let up = atoms::cut(s.up, heads);
    let found = sift_list(words, base, up, atoms::union(up, s.dropped), filter, at);
    if !atoms::is_subset(found.all, heads) {
        return clash(s);
    }
    State {
        up: atoms::union(s.up, found.all),
        dropped: atoms::union(s.dropped, atoms::without(heads, found.some)),
    }
}
