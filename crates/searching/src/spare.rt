// Pilots taken from spare atoms: atoms that are dropped at the start and stand in no rule, no table and no list. Which ones are proposed is free:
// they are tested, and there are none where a test fails.
ghost use Rattle.std.specs.Prelude.{◌≡◌, true, ◌^◌, ◌≤◌, ◌<◌, length};
ghost use Rattle.plan.specs.Limits.{MAX_TABLES, MAX_UNITS};
ghost use Rattle.answer_sets.specs.Lent.{IsLent, Lent};
ghost use Rattle.searching.specs.Spare.{Spare, NoInputs, DistinctPilots, Piloted, AllDown, all_pilots, with_inputs};

use answer_sets::rule::{head, rule_atoms};
use answer_sets::uses::uses;
use parities::is_parity;
use pilots::follow::word_at;
use plan::{CONTACT_WORDS, MAX_TABLES, MAX_UNITS};
use propagating::Job;
use states::State;

// All atoms of the rules of the word.
fn all_atoms(rules: &[u64], which: u64) -> u64
    requires { Lent rules.now which }
{
    let mut all = 0;
    for rule in atoms::each(which) {
        all = atoms::union(all, rule_atoms(rules, rule));
    }
    all
}

// The inputs of all tables.
fn all_inputs(rules: &[u64]) -> u64 {
    let mut all = 0;
    for t in 0..MAX_TABLES {
        all = atoms::union(all, word_at(rules, CONTACT_WORDS * t));
    }
    all
}

// Whether no atom of x stands in a rule of the word.
fn in_no_rule(rules: &[u64], which: u64, x: u64) -> bool
    requires { Lent rules.now which }
    ensures { result ≡ true → Spare rules.now which x }
{
    for rule in atoms::each(which) {
        if !atoms::are_apart(rule_atoms(rules, rule), x) {
            return false;
        }
    }
    true
}

// Whether none is an input of a table.
fn in_no_table(rules: &[u64], x: u64) -> bool
    ensures { result ≡ true → NoInputs rules.now x MAX_TABLES }
{
    for t in 0..MAX_TABLES {
        if !atoms::are_apart(word_at(rules, CONTACT_WORDS * t), x) {
            return false;
        }
    }
    true
}

// Whether no atom is the pilot of two tables.
fn are_distinct(pilots: &[u64]) -> bool
    requires { MAX_TABLES ≤ length pilots.now }
    ensures { result ≡ true → DistinctPilots pilots.now }
{
    let mut all = 0;
    for pilot in &pilots[..MAX_TABLES] {
        if !atoms::are_apart(all, *pilot) {
            return false;
        }
        all = atoms::union(all, *pilot);
    }
    true
}

// The tables of one rule that are worth a pilot: all where there are several; the one table of a constraint, unless it is a parity.
fn worth_of(rules: &[u64], rule: usize) -> u64
    requires { IsLent rules.now rule }
    ensures { result < 2 ^ MAX_TABLES }
{
    let used = uses(rules, rule);
    let tables = atoms::cut(
        atoms::first(MAX_TABLES),
        atoms::union(used, used >> MAX_TABLES),
    );
    if !atoms::at_most_one(tables) {
        return tables;
    }
    if tables == 0 {
        return 0;
    }
    if head(rules, rule) != 0 {
        return 0;
    }
    let at = CONTACT_WORDS * atoms::lowest(tables);
    if is_parity(word_at(rules, at), word_at(rules, at + 1)) {
        return 0;
    }
    tables
}

// The tables that are worth a pilot.
fn worth_all(rules: &[u64], which: u64) -> u64
    requires { Lent rules.now which }
    ensures { result < 2 ^ MAX_TABLES }
{
    let mut tables = 0;
    for rule in atoms::each(which) {
        tables = atoms::union(tables, worth_of(rules, rule));
    }
    tables
}

// One of these atoms for each of the tables, as far as there are any.
fn propose(tables: u64, spare: u64) -> [u64; MAX_TABLES]
    requires { tables < 2 ^ MAX_TABLES }
{
    let mut pilots = [0u64; MAX_TABLES];
    for (t, atom) in atoms::each(tables).zip(atoms::each(spare)) {
        pilots[t] = atoms::single(atom);
    }
    pilots
}

// All pilots.
pub fn all_of(pilots: &[u64]) -> u64
    requires { MAX_TABLES ≤ length pilots.now }
    ensures { result ≡ all_pilots pilots.now }
{
    atoms::union_of(pilots, MAX_TABLES, atoms::first(MAX_TABLES))
}

// Whether the pilots may serve: spare atoms that are dropped, each of one table.
fn may_serve(rules: &[u64], heads: &[u64], pilots: &[u64], unit: Job, s: State) -> bool
    requires { Lent rules.now unit.rules × (MAX_UNITS ≤ length heads.now) × (MAX_TABLES ≤ length pilots.now)
        × (unit.predecessors < 2 ^ MAX_UNITS) }
    ensures { result ≡ true → Piloted rules.now heads.now pilots.now unit (all_pilots pilots.now)
        × AllDown (all_pilots pilots.now) s }
{
    let x = all_of(pilots);
    if !atoms::is_subset(x, s.dropped) {
        return false;
    }
    if !atoms::are_apart(s.up, x) {
        return false;
    }
    if !atoms::are_apart(atoms::union_of(heads, MAX_UNITS, unit.predecessors), x) {
        return false;
    }
    if !are_distinct(pilots) {
        return false;
    }
    if !in_no_table(rules, x) {
        return false;
    }
    in_no_rule(rules, unit.rules, x)
}

// The atoms that are dropped in the state and stand in no rule of the unit, no table and no list.
fn spare_atoms(rules: &[u64], heads: &[u64], unit: Job, s: State) -> u64
    requires { Lent rules.now unit.rules × (MAX_UNITS ≤ length heads.now) }
{
    let known = atoms::union(
        atoms::union(all_atoms(rules, unit.rules), all_inputs(rules)),
        atoms::union(s.up, atoms::union_of(heads, MAX_UNITS, unit.predecessors)),
    );
    atoms::without(s.dropped, known)
}

// The pilots of the unit's tables: atoms that are dropped in the state.
pub fn take_pilots(rules: &[u64], heads: &[u64], unit: Job, s: State) -> [u64; MAX_TABLES]
    requires { Lent rules.now unit.rules × (MAX_UNITS ≤ length heads.now) × (unit.predecessors < 2 ^ MAX_UNITS) }
    ensures piloted { Piloted rules.now heads.now result unit (all_pilots result) }
    ensures down { AllDown (all_pilots result) s }
{
    let tables = worth_all(rules, unit.rules);
    if tables == 0 {
        return [0u64; MAX_TABLES];
    }
    let pilots = propose(tables, spare_atoms(rules, heads, unit, s));
    if may_serve(rules, heads, &pilots, unit, s) {
        return pilots;
    }
    [0u64; MAX_TABLES]
}

// The unit with these inputs more.
pub fn with_inputs(unit: Job, more: u64) -> Job
    ensures { result ≡ with_inputs unit more }
{
    Job {
        rules: unit.rules,
        inputs: atoms::union(unit.inputs, more),
        predecessors: unit.predecessors,
        nearest: unit.nearest,
    }
}
