// What constraints tell of parity tables: one whose words hold says that its one use fails, and the table's answer is known.
ghost use Rattle.std.specs.Prelude.{◌≡◌, true, ◌<◌, ◌≤◌, length};
ghost use Rattle.atoms.specs.Word.{Has};
ghost use Rattle.atoms.specs.Bounded.{Decides};
ghost use Rattle.atoms.specs.Collected.{Collects};
ghost use Rattle.plan.specs.Limits.{FIRST_RULE};
ghost use Rattle.answer_sets.specs.Lent.{IsLent, Lent, USE_BITS as Lent-as-USE_BITS};
ghost use Rattle.parities.specs.Told.{TellsParity, ToldAtom, Held, use_row};

use crate::rows::Row;
use crate::tables::is_parity;
use answer_sets::rule::{head, negative_body, positive_body, rule_atoms};
use answer_sets::uses::{USE_BITS, table_inputs, table_truth, used_table, uses};
use plan::MAX_TABLES;
use states::State;

// Whether the rule is a constraint with one use, of a parity table.
fn is_telling(rules: &[u64], rule: usize) -> bool
    requires { IsLent rules.now rule }
    ensures { Decides (TellsParity rules.now rule) result }
{
    if head(rules, rule) != 0 {
        return false;
    }
    let used = atoms::cut(uses(rules, rule), atoms::first(USE_BITS));
    if used == 0 {
        return false;
    }
    if !atoms::at_most_one(used) {
        return false;
    }
    let t = used_table(atoms::lowest(used));
    is_parity(table_inputs(rules, t), table_truth(rules, t))
}

// The constraints of the word with one use, of a parity table.
pub fn telling_rules(rules: &[u64], which: u64) -> u64
    requires { Lent rules.now which }
    ensures { Collects (λ i. Has which i × TellsParity rules.now i) result }
{
    let mut telling = 0;
    for rule in atoms::each(which) {
        let one = atoms::single_if(is_telling(rules, rule), rule);
        telling = atoms::union(telling, one);
    }
    telling
}

// Their atoms: all that a step looks at which takes rows from them.
pub fn telling_atoms(rules: &[u64], which: u64) -> u64
    requires { Lent rules.now which }
    ensures { Collects (ToldAtom rules.now which) result }
{
    let mut all = 0;
    for rule in atoms::each(telling_rules(rules, which)) {
        all = atoms::union(all, rule_atoms(rules, rule));
    }
    all
}

// Whether the rule's words hold.
pub fn is_held(rules: &[u64], rule: usize, s: State) -> bool
    requires { IsLent rules.now rule }
    ensures { result ≡ true → Held rules.now rule s }
{
    if !atoms::is_subset(positive_body(rules, rule), s.up) {
        return false;
    }
    atoms::is_subset(negative_body(rules, rule), s.dropped)
}

// The row of a use of a parity table that fails: a table that must be true is false, and one that must be false is true.
pub fn use_row(rules: &[u64], i: usize) -> Row
    requires { (FIRST_RULE ≤ length rules.now) × (i < Lent-as-USE_BITS) }
    ensures { result ≡ use_row rules.now i }
{
    let t = used_table(i);
    let even = (table_truth(rules, t) % 2) as usize;
    Row {
        word: table_inputs(rules, t),
        bit: (even + i / MAX_TABLES) % 2,
    }
}
