// The desk: data computed once per unit, in one array, at which every step looks. First the head atoms of each list, then the rules that may back each atom,
// the index of woken steps, the pilots of the tables, and the rules with pilots in place of uses.
ghost use Rattle.std.specs.Prelude.{◌≡◌, ◌+◌, ◌^◌, ◌≤◌, ◌<◌, length, get_or};
ghost use Rattle.atoms.specs.Word.{ATOMS, ◌⊆◌, ◌∩◌};
ghost use Rattle.plan.specs.Limits.{MAX_UNITS};
ghost use Rattle.answer_sets.specs.Lent.{Lent};
ghost use Rattle.propagating.specs.Desk.{BACKERS_AT, DESK_WORDS, LaidOut};

use crate::agenda::{INDEX_WORDS, wake_index};
use crate::unit::Job;
use atoms::ATOMS;
use atoms::words::store;
use narrowing::backers::backers;
use pilots::link::{LINKED_WORDS, link};
use plan::{MAX_TABLES, MAX_UNITS};

pub const BACKERS: usize = MAX_UNITS;

pub const INDEX: usize = BACKERS + ATOMS;

pub const PILOTS: usize = INDEX + INDEX_WORDS;

pub const LINKED: usize = PILOTS + MAX_TABLES;

pub const DESK_WORDS: usize = LINKED + LINKED_WORDS;

// The desk of a unit whose looped atoms are these and whose tables have these pilots.
pub fn lay_out(
    rules: &[u64],
    heads: &[u64],
    pilots: &[u64; MAX_TABLES],
    unit: Job,
    looped: u64,
) -> [u64; DESK_WORDS]
    requires { Lent rules.now unit.rules × (MAX_UNITS ≤ length heads.now) × (unit.nearest < 2 ^ MAX_UNITS) }
    ensures { LaidOut rules.now heads.now pilots.now unit result }
{
    let linked = link(rules, pilots, unit.rules);
    let backers = backers(&linked, unit.rules);
    let index = wake_index(rules, &linked, pilots, heads, unit, looped);
    let mut desk = [0u64; DESK_WORDS];
    store(&heads[0..MAX_UNITS], &mut desk, 0);
    store(&backers, &mut desk, BACKERS);
    store(&index, &mut desk, INDEX);
    store(pilots, &mut desk, PILOTS);
    store(&linked, &mut desk, LINKED);
    desk
}

// The rules that may back an atom, as the desk has them.
pub fn backing(desk: &[u64], which: u64, atom: usize) -> u64
    requires { (length desk.now ≡ DESK_WORDS) × (atom < ATOMS) }
    ensures within { result ⊆ which }
    ensures is { result ≡ which ∩ get_or desk.now (BACKERS_AT + atom) 0 }
{
    atoms::cut(which, desk[BACKERS + atom])
}
