// The agenda: which steps may have something new to say. It is advice: a step that is left out costs pruning and no member.
ghost use Rattle.std.specs.Prelude.{◌≡◌, not, ◌^◌, ◌≤◌, ◌<◌, eqb, length, ◌⊎◌};
ghost use Rattle.std.specs.Option.{MatchOption};
ghost use Rattle.atoms.specs.Word.{ATOMS, Has, outside, Apart, ◌∪◌};
ghost use Rattle.atoms.specs.Bounded.{single_if};
ghost use Rattle.atoms.specs.Collected.{Collects};
ghost use Rattle.plan.specs.Limits.{MAX_TABLES, MAX_UNITS};
ghost use Rattle.answer_sets.specs.Lent.{lent, IsLent, Lent};
ghost use Rattle.narrowing.specs.Marks.{AddsAt, ByOne};
ghost use Rattle.pilots.specs.Linked.{LINKED_WORDS};
ghost use Rattle.propagating.specs.Agenda.{Idle, TakenFrom, Woken, INDEX_WORDS, FOUNDED_PLACE, atoms_of, WakesList, WakesFounded};
ghost use Rattle.propagating.specs.Agenda.{WakesTable, WakesTables, WakesSums, WakesTold, TablePlace, WakeIndex};

use crate::step::{FOUNDED_STEP, LISTS, SUM_STEP, SUPPORTS, TABLE_STEPS};
use crate::unit::Job;
use answer_sets::rule::{head, looks, positive_body};
use answer_sets::uses::table_inputs;
use atoms::ATOMS;
use narrowing::marks::mark;
use narrowing::woken::{RULES_DOWN, RULES_UP, SUPPORTS_UP, WOKEN_WORDS, note_rules};
use parities::{parity_atoms, parity_tables, telling_atoms, telling_rules};
use plan::MAX_TABLES;
use states::{State, undecided};

// The founded step's place in the agenda's third word, behind the lists.
const FOUNDED_PLACE: usize = FOUNDED_STEP - LISTS;

// The place of the first table there.
const TABLES_PLACE: usize = TABLE_STEPS - LISTS;

// The place of the sums, behind the tables.
const SUMS_PLACE: usize = SUM_STEP - LISTS;

// The index of woken steps: the parts for rules and supports, and one for the lists and the founded step.
const OTHERS: usize = WOKEN_WORDS;

pub const INDEX_WORDS: usize = WOKEN_WORDS + ATOMS;

// The rules, the atoms whose support, and the lists that are to be looked at; behind these the founded step, the tables and their sums.
#[derive(Clone, Copy)]
pub struct Agenda {
    pub rules: u64,
    pub supports: u64,
    pub others: u64,
}

// A step taken from an agenda, and the rest.
// Stays: the step is a number, since the trail notes it as one; held decoded, it would have to be numbered again for each note, which is no plainer.
#[derive(Clone, Copy)]
pub struct Taken {
    pub step: usize,
    pub rest: Agenda,
}

// The first step of the agenda, the cheap ones before the others, if there is one.
pub fn take(a: Agenda) -> Option<Taken>
    ensures { MatchOption result (Idle a) (λ t. TakenFrom a t) }
{
    if a.rules != 0 {
        let rule = atoms::lowest(a.rules);
        let rest = Agenda {
            rules: atoms::drop(a.rules, rule),
            supports: a.supports,
            others: a.others,
        };
        return Some(Taken { step: rule, rest });
    }
    if a.supports != 0 {
        let atom = atoms::lowest(a.supports);
        let rest = Agenda {
            rules: a.rules,
            supports: atoms::drop(a.supports, atom),
            others: a.others,
        };
        return Some(Taken {
            step: SUPPORTS + atom,
            rest,
        });
    }
    if a.others == 0 {
        return None;
    }
    let other = atoms::lowest(a.others);
    let rest = Agenda {
        rules: a.rules,
        supports: a.supports,
        others: atoms::drop(a.others, other),
    };
    Some(Taken {
        step: LISTS + other,
        rest,
    })
}

// The agenda with the steps that these atoms wake, once they are up (`side` RULES_UP) or dropped (`side` RULES_DOWN).
fn wake(index: &[u64], which: u64, side: usize, a: Agenda) -> Agenda
    requires { (INDEX_WORDS ≤ length index.now) × (side ≤ ATOMS) }
{
    let mut r = a;
    for atom in atoms::each(which) {
        r = Agenda {
            rules: atoms::union(r.rules, index[side + atom]),
            supports: atoms::union(r.supports, index[SUPPORTS_UP + side + atom]),
            others: atoms::union(r.others, index[OTHERS + atom]),
        };
    }
    r
}

// The agenda after a step: with what the newly decided atoms wake, but not the supports of dropped atoms, which have nothing to say; empty where
// nothing completes the state.
pub fn woken(index: &[u64], a: Agenda, before: State, after: State) -> Agenda
    requires { INDEX_WORDS ≤ length index.now }
    ensures { Woken before after a result }
{
    if !atoms::are_apart(after.up, after.dropped) {
        return Agenda {
            rules: 0,
            supports: 0,
            others: 0,
        };
    }
    let new = atoms::without(
        undecided(before.up, before.dropped),
        undecided(after.up, after.dropped),
    );
    if new == 0 {
        return a;
    }
    let raised = wake(index, atoms::cut(new, after.up), RULES_UP, a);
    let r = wake(index, atoms::cut(new, after.dropped), RULES_DOWN, raised);
    Agenda {
        rules: r.rules,
        supports: atoms::without(r.supports, after.dropped),
        others: r.others,
    }
}

// Notes for each atom the lists that look at it.
fn note_lists(heads: &[u64], near: u64, index: &mut [u64])
    requires { (MAX_UNITS ≤ length heads.now) × (near < 2 ^ MAX_UNITS) × (INDEX_WORDS ≤ length index.old) }
    ensures { AddsAt (ByOne (WakesList heads.now) near) index.old index.new }
{
    for v in atoms::each(near) {
        mark(index, OTHERS, heads[v], atoms::single(v));
    }
}

// The atoms of a rule that has a looped head atom, and else none.
fn looped_rule(rules: &[u64], rule: usize, looped: u64) -> u64
    requires { IsLent rules.now rule }
    ensures looped { (Apart ((lent rules.now).head rule) looped → ⊥) → result ≡ atoms_of rules.now rule }
    ensures none { Apart ((lent rules.now).head rule) looped → result ≡ 0 }
{
    let head = head(rules, rule);
    if atoms::are_apart(head, looped) {
        return 0;
    }
    atoms::union(
        head,
        atoms::union(positive_body(rules, rule), looks(rules, rule)),
    )
}

// Notes the founded step for the atoms of the rules that have a looped head atom.
fn note_founded(rules: &[u64], which: u64, looped: u64, index: &mut [u64])
    requires { Lent rules.now which × (INDEX_WORDS ≤ length index.old) }
    ensures { AddsAt (ByOne (WakesFounded rules.now looped) which) index.old index.new }
{
    let founded = atoms::single(FOUNDED_PLACE);
    for rule in atoms::each(which) {
        mark(index, OTHERS, looped_rule(rules, rule, looped), founded);
    }
}

// Notes for the inputs of a table and its pilot, if it has one, its step.
fn note_table(linked: &[u64], pilots: &[u64], t: usize, index: &mut [u64])
    requires { (length linked.now ≡ LINKED_WORDS) × (length pilots.now ≡ MAX_TABLES) × (t < MAX_TABLES) × (INDEX_WORDS ≤ length index.old) }
    ensures { AddsAt (WakesTable linked.now pilots.now t) index.old index.new }
{
    let pilot = pilots[t];
    if pilot == 0 {
        return;
    }
    let seen = atoms::union(table_inputs(linked, t), pilot);
    mark(index, OTHERS, seen, atoms::single(TABLES_PLACE + t));
}

// The same for all tables.
fn note_tables(linked: &[u64], pilots: &[u64], index: &mut [u64])
    requires { (length linked.now ≡ LINKED_WORDS) × (length pilots.now ≡ MAX_TABLES) × (INDEX_WORDS ≤ length index.old) }
    ensures { AddsAt (WakesTables linked.now pilots.now MAX_TABLES) index.old index.new }
{
    for t in 0..MAX_TABLES {
        note_table(linked, pilots, t, index);
    }
}

// Notes the sums for the inputs and pilots of the parity tables, where there are two or more of these.
fn note_sums(linked: &[u64], pilots: &[u64], index: &mut [u64])
    requires { (length pilots.now ≡ MAX_TABLES) × (INDEX_WORDS ≤ length index.old) }
    ensures { AddsAt (WakesSums linked.now pilots.now) index.old index.new }
{
    if atoms::at_most_one(parity_tables(linked, pilots)) {
        return;
    }
    let seen = parity_atoms(linked, pilots);
    mark(index, OTHERS, seen, atoms::single(SUMS_PLACE));
}

// And for the atoms of the constraints that tell of parity tables, where there are two or more of these.
fn note_told(rules: &[u64], which: u64, index: &mut [u64])
    requires { Lent rules.now which × (INDEX_WORDS ≤ length index.old) }
    ensures { AddsAt (WakesTold rules.now which) index.old index.new }
{
    if atoms::at_most_one(telling_rules(rules, which)) {
        return;
    }
    let seen = telling_atoms(rules, which);
    mark(index, OTHERS, seen, atoms::single(SUMS_PLACE));
}

// The index of the steps that a decided atom wakes, in a unit whose looped atoms are these, and whose rules are linked by these pilots.
pub fn wake_index(
    rules: &[u64],
    linked: &[u64],
    pilots: &[u64],
    heads: &[u64],
    unit: Job,
    looped: u64,
) -> [u64; INDEX_WORDS]
    requires { Lent rules.now unit.rules × Lent linked.now unit.rules × (length linked.now ≡ LINKED_WORDS)
        × (length pilots.now ≡ MAX_TABLES) × (MAX_UNITS ≤ length heads.now) × (unit.nearest < 2 ^ MAX_UNITS) }
    ensures { WakeIndex rules.now linked.now pilots.now heads.now unit looped result }
{
    let mut index = [0u64; INDEX_WORDS];
    note_rules(linked, unit.rules, &mut index);
    note_lists(heads, unit.nearest, &mut index);
    note_founded(rules, unit.rules, looped, &mut index);
    note_tables(linked, pilots, &mut index);
    note_sums(linked, pilots, &mut index);
    note_told(rules, unit.rules, &mut index);
    index
}

// The places of the steps of the tables that have a pilot, in the agenda's third word.
fn table_places(pilots: &[u64]) -> u64
    requires { length pilots.now ≡ MAX_TABLES }
    ensures { Collects (TablePlace pilots.now MAX_TABLES) result }
{
    let mut places = 0;
    for t in 0..MAX_TABLES {
        places = atoms::union(places, atoms::single_if(pilots[t] != 0, TABLES_PLACE + t));
    }
    places
}

// The agenda with the steps of all tables that have a pilot.
pub fn with_tables(pilots: &[u64], a: Agenda) -> Agenda
    requires { length pilots.now ≡ MAX_TABLES }
    ensures same { (result.rules ≡ a.rules) × (result.supports ≡ a.supports) }
    ensures others { Collects (λ q. Has a.others q ⊎ TablePlace pilots.now MAX_TABLES q) result.others }
{
    Agenda {
        rules: a.rules,
        supports: a.supports,
        others: atoms::union(a.others, table_places(pilots)),
    }
}

// The agenda of all steps but those of tables; without looped atoms the founded step has nothing to say beyond the supports. The sums are on no first
// agenda: the first of their atoms that is decided wakes them.
pub fn every_step(unit: Job, looped: u64) -> Agenda
    ensures rules { (result.rules ≡ unit.rules) × (result.supports ≡ outside unit.inputs) }
    ensures others { result.others ≡ unit.nearest ∪ single_if (not (eqb looped 0)) FOUNDED_PLACE }
{
    Agenda {
        rules: unit.rules,
        supports: atoms::outside(unit.inputs),
        others: atoms::union(unit.nearest, atoms::single_if(looped != 0, FOUNDED_PLACE)),
    }
}
