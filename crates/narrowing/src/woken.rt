// Which steps may have something new to say once an atom is decided: an index made once per unit from the rules' words. Which steps it names is free: a step
// that is left out costs pruning and no member.
ghost use Rattle.std.specs.Prelude.{◌⊎◌, ◌+◌, ◌≤◌, ◌<◌, length};
ghost use Rattle.atoms.specs.Word.{ATOMS};
ghost use Rattle.answer_sets.specs.Lent.{IsLent, Lent};
ghost use Rattle.narrowing.specs.Marks.{AddsAt, NotedAt};
ghost use Rattle.narrowing.specs.Woken.{WOKEN_WORDS, Wakes, SomeWakes};

use crate::marks::mark;
use answer_sets::rule::{head, looks, negative_body, positive_body};
use atoms::ATOMS;

// The table's parts, a word for each atom in each: the rules to look at once the atom is up, and once it is dropped; the atoms whose support to
// look at once it is up, and once it is dropped.
pub const RULES_UP: usize = 0;

pub const RULES_DOWN: usize = ATOMS;

pub const SUPPORTS_UP: usize = 2 * ATOMS;

const SUPPORTS_DOWN: usize = 3 * ATOMS;

pub const WOKEN_WORDS: usize = 4 * ATOMS;

// Notes for these atoms a rule in one part of the table and its head in another.
fn note(table: &mut [u64], rules_at: usize, supports_at: usize, which: u64, rule: u64, head: u64)
    requires { (rules_at + ATOMS ≤ length table.old) × (supports_at + ATOMS ≤ length table.old) }
    ensures { AddsAt (λ i q. NotedAt rules_at which rule i q ⊎ NotedAt supports_at which head i q) table.old table.new }
{
    mark(table, rules_at, which, rule);
    mark(table, supports_at, which, head);
}

// Notes one rule. A body that comes to hold and a head that loses an atom concern the rule; a body that fails and another head atom that goes up
// concern its head atoms' support. What else the body looks at may do either.
fn note_rule(rules: &[u64], rule: usize, table: &mut [u64])
    requires { IsLent rules.now rule × (rule < ATOMS) × (WOKEN_WORDS ≤ length table.old) }
    ensures { AddsAt (Wakes rules.now rule) table.old table.new }
{
    let head = head(rules, rule);
    let negative = negative_body(rules, rule);
    let either = atoms::without(looks(rules, rule), negative);
    let up = atoms::union(positive_body(rules, rule), either);
    let down = atoms::union(atoms::union(head, negative), either);
    let this = atoms::single(rule);
    note(table, RULES_UP, SUPPORTS_DOWN, up, this, head);
    note(table, RULES_DOWN, SUPPORTS_UP, down, this, head);
}

// Notes for each atom the steps that rules of the word have woken.
pub fn note_rules(rules: &[u64], which: u64, table: &mut [u64])
    requires { Lent rules.now which × (WOKEN_WORDS ≤ length table.old) }
    ensures { AddsAt (SomeWakes rules.now which) table.old table.new }
{
    for rule in atoms::each(which) {
        note_rule(rules, rule, table);
    }
}
