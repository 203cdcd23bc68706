// A 64-bit word as a set of atoms: atom i is bit i. Code above takes sets apart through these functions alone.
#![tactic(auto)]

mod each_atom;
pub mod tally;
pub mod words;

ghost use Rattle.std.specs.Prelude.{◌≡◌, ◌≤◌, ◌<◌, length, get_or};
ghost use Rattle.std.specs.Int.Count.{ones};
ghost use Rattle.atoms.specs.Word.{ATOMS, ◌∩◌, ◌∪◌, ◌∖◌, subset, apart, atom, below, outside, Lowest, Highest, AtMostOne};
ghost use Rattle.atoms.specs.Bounded.{Decides, single_if, union_in};

pub use each_atom::{Members, each};

// How many atoms there are.
pub const ATOMS: usize = 64;

// The word of all atoms.
pub const EVERY_ATOM: u64 = 0xffff_ffff_ffff_ffff;

// The atoms that are in both.
pub fn cut(a: u64, b: u64) -> u64
    ensures { result ≡ a ∩ b }
{
    a & b
}

// The atoms that are in one or the other.
pub fn union(a: u64, b: u64) -> u64
    ensures { result ≡ a ∪ b }
{
    a | b
}

// The atoms of a that are not in b.
pub fn without(a: u64, b: u64) -> u64
    ensures { result ≡ a ∖ b }
{
    a - (a & b)
}

// Whether every atom of a is in b.
pub fn is_subset(a: u64, b: u64) -> bool
    ensures { result ≡ subset a b }
{
    cut(a, b) == a
}

// Whether no atom of a is in b.
pub fn are_apart(a: u64, b: u64) -> bool
    ensures { result ≡ apart a b }
{
    cut(a, b) == 0
}

// The set of one atom.
pub fn single(i: usize) -> u64
    requires { i < ATOMS }
    ensures { result ≡ atom i }
{
    1 << i
}

// The set of the atoms below n.
pub fn first(n: usize) -> u64
    requires { n ≤ ATOMS }
    ensures { result ≡ below n }
{
    if n == ATOMS {
        return 0xffff_ffff_ffff_ffff;
    }
    (1 << n) - 1
}

// All atoms but those of the word.
pub fn outside(w: u64) -> u64
    ensures { result ≡ outside w }
{
    without(first(ATOMS), w)
}

// The set of the one number i where the test holds, and the empty set where it does not.
pub fn single_if(test: bool, i: usize) -> u64
    requires { i < ATOMS }
    ensures { result ≡ single_if test i }
{
    if test {
        return single(i);
    }
    0
}

// The lowest atom of a word that has one.
pub fn lowest(w: u64) -> usize
    requires { w ≡ 0 → ⊥ }
    ensures { Lowest w result × (result < ATOMS) }
{
    u64::trailing_zeros(w) as usize
}

// The highest atom of a word that has one.
pub fn highest(w: u64) -> usize
    requires { w ≡ 0 → ⊥ }
    ensures { Highest w result × (result < ATOMS) }
{
    63 - u64::leading_zeros(w) as usize
}

// How many atoms a word has.
pub fn count(w: u64) -> usize
    ensures { result ≡ ones w }
{
    u64::count_ones(w) as usize
}

// The set without one atom.
pub fn drop(w: u64, i: usize) -> u64
    requires { i < ATOMS }
    ensures { result ≡ w ∖ atom i }
{
    without(w, single(i))
}

// Whether a word has at most one atom.
pub fn at_most_one(w: u64) -> bool
    ensures { Decides (AtMostOne w) result }
{
    if w == 0 {
        return true;
    }
    drop(w, lowest(w)) == 0
}

// The atoms of those of the first n words whose numbers are in `which`.
pub fn union_of(words: &[u64], n: usize, which: u64) -> u64
    requires { (n ≤ ATOMS) × (n ≤ length words.now) }
    ensures { result ≡ union_in n which (λ i. get_or words.now i 0) }
{
    let mut all = 0;
    for i in each(cut(which, first(n))) {
        all = union(all, words[i]);
    }
    all
}
