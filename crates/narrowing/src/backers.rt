// Which rules may back an atom: a table made once per unit from the rules' words alone.
ghost use Rattle.std.specs.Prelude.{◌≤◌, ◌<◌, length};
ghost use Rattle.atoms.specs.Word.{ATOMS};
ghost use Rattle.answer_sets.specs.Lent.{IsLent, Lent};
ghost use Rattle.narrowing.specs.Backers.{RuleBacks, RulesBack, Backers};

use crate::marks::mark;
use answer_sets::rule::{head, negative_body, positive_body};
use atoms::ATOMS;

// Notes the rule for each head atom that is in neither body word.
fn back_by(rules: &[u64], rule: usize, table: &mut [u64])
    requires { IsLent rules.now rule × (rule < ATOMS) × (ATOMS ≤ length table.old) }
    ensures { RuleBacks rules.now rule table.old table.new }
{
    let body = atoms::union(positive_body(rules, rule), negative_body(rules, rule));
    let backed = atoms::without(head(rules, rule), body);
    mark(table, 0, backed, atoms::single(rule));
}

// Notes all rules of the word.
fn back_by_all(rules: &[u64], which: u64, table: &mut [u64])
    requires { Lent rules.now which × (ATOMS ≤ length table.old) }
    ensures { RulesBack rules.now which table.old table.new }
{
    for rule in atoms::each(which) {
        back_by(rules, rule, table);
    }
}

// For each atom the rules that may back it.
pub fn backers(rules: &[u64], which: u64) -> [u64; ATOMS]
    requires { Lent rules.now which }
    ensures { Backers rules.now which result }
{
    let mut table = [0u64; ATOMS];
    back_by_all(rules, which, &mut table);
    table
}
