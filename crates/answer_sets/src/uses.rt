// The uses that a rule makes of contact tables: what they ask of a position, and what is known of them at a half-decided one.
ghost use Rattle.std.specs.Prelude.{◌≡◌, true, ◌<◌, ◌≤◌, length};
ghost use Rattle.plan.specs.Limits.{FIRST_RULE as Limits-as-FIRST_RULE, MAX_TABLES as Limits-as-MAX_TABLES};
ghost use Rattle.answer_sets.specs.Lent.{IsLent, USE_BITS as Lent-as-USE_BITS, uses, used_table, inputs, truth, use_holds, used_inputs};
ghost use Rattle.answer_sets.specs.Known.{Says, PartsSay, IsWord, BodySays};
ghost use Rattle.states.specs.State.{half_decided};

use crate::truth::{Truth, both, is_failure, opposite, rows_known};
use plan::{CONTACT_WORDS, FIRST_RULE, MAX_TABLES, RULE_WORDS, USES};

// A bit for each table that must be true, and one for each that must be false.
pub const USE_BITS: usize = 2 * MAX_TABLES;

// The word of the rule's uses.
pub fn uses(rules: &[u64], rule: usize) -> u64
    requires { IsLent rules.now rule }
    ensures { result ≡ uses rules.now rule }
{
    rules[FIRST_RULE + RULE_WORDS * rule + USES]
}

// The table that the use is of.
pub fn used_table(i: usize) -> usize
    requires { i < Lent-as-USE_BITS }
    ensures { (result ≡ used_table i) × (result < Limits-as-MAX_TABLES) }
{
    if i < MAX_TABLES { i } else { i - MAX_TABLES }
}

// The table's input atoms.
pub fn table_inputs(rules: &[u64], table: usize) -> u64
    requires { (Limits-as-FIRST_RULE ≤ length rules.now) × (table < Limits-as-MAX_TABLES) }
    ensures { result ≡ inputs rules.now table }
{
    rules[CONTACT_WORDS * table]
}

// The table's truth word.
pub fn table_truth(rules: &[u64], table: usize) -> u64
    requires { (Limits-as-FIRST_RULE ≤ length rules.now) × (table < Limits-as-MAX_TABLES) }
    ensures { result ≡ truth rules.now table }
{
    rules[CONTACT_WORDS * table + 1]
}

// The input atoms of the tables that the rule uses.
pub fn used_inputs(rules: &[u64], rule: usize) -> u64
    requires { IsLent rules.now rule }
    ensures { result ≡ used_inputs rules.now rule }
{
    let mut all = 0;
    for i in atoms::each(atoms::cut(uses(rules, rule), atoms::first(USE_BITS))) {
        all = atoms::union(all, table_inputs(rules, used_table(i)));
    }
    all
}

// What is known of the use: the rows that completions have, held against the truth word.
fn use_known(rules: &[u64], i: usize, up: u64, dropped: u64) -> Truth
    requires { (Limits-as-FIRST_RULE ≤ length rules.now) × (i < Lent-as-USE_BITS) }
    ensures { Says (λ N. use_holds rules.now i N ≡ true) (half_decided up dropped) result }
{
    let table = used_table(i);
    let rows = contact_tables::agreeing_rows(table_inputs(rules, table), up, dropped);
    let said = rows_known(rows, table_truth(rules, table));
    if i < MAX_TABLES { said } else { opposite(said) }
}

// What is known of the body, from what is known of its words; no use is asked where something failed already.
#[inline(never)]
pub fn with_uses(rules: &[u64], rule: usize, up: u64, dropped: u64, words: Truth) -> Truth
    requires { IsLent rules.now rule × PartsSay rules.now rule IsWord (half_decided up dropped) words }
    ensures { BodySays rules.now rule up dropped result }
{
    let mut known = words;
    for i in atoms::each(atoms::cut(uses(rules, rule), atoms::first(USE_BITS))) {
        if is_failure(known) {
            return Truth::Fails;
        }
        known = both(known, use_known(rules, i, up, dropped));
    }
    known
}
