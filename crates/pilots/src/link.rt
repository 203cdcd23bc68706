// Linked rules: the rules of a unit with pilots in place of their uses of tables.
ghost use Rattle.std.specs.Prelude.{◌≡◌, ◌≤◌, ◌<◌, length};
ghost use Rattle.atoms.specs.Bounded.{Decides};
ghost use Rattle.plan.specs.Limits.{MAX_TABLES};
ghost use Rattle.answer_sets.specs.Lent.{rule_at, IsLent, Lent};
ghost use Rattle.pilots.specs.Linked.{written, NoPilots, Plain, ToldUses, RuleLinked, RulesLinked, Linked};

use answer_sets::rule::{head, negative_body, positive_body};
use answer_sets::uses::uses;
use atoms::words::store;
use plan::{FIRST_RULE, MAX_RULES, MAX_TABLES, RULE_WORDS, USES};

pub const LINKED_WORDS: usize = FIRST_RULE + RULE_WORDS * MAX_RULES;

// The uses gathered so far, with those of table t if it has a pilot.
fn told_with(pilots: &[u64], t: usize, told: u64) -> u64
    requires { (MAX_TABLES ≤ length pilots.now) × (t < MAX_TABLES) × ToldUses pilots.now told }
    ensures { ToldUses pilots.now result }
{
    if pilots[t] == 0 {
        return told;
    }
    let both = atoms::union(atoms::single(t), atoms::single(MAX_TABLES + t));
    atoms::union(told, both)
}

// The uses of tables that have a pilot.
fn told_uses(pilots: &[u64]) -> u64
    requires { MAX_TABLES ≤ length pilots.now }
    ensures { ToldUses pilots.now result }
{
    let mut told = 0;
    for t in 0..MAX_TABLES {
        told = told_with(pilots, t, told);
    }
    told
}

// Writes the four words of one rule.
fn put_rule(linked: &mut [u64], rule: usize, head: u64, positive: u64, negative: u64, used: u64)
    requires { IsLent linked.old rule }
    ensures { linked.new ≡ written linked.old (rule_at rule) head positive negative used }
{
    let at = FIRST_RULE + RULE_WORDS * rule;
    linked[at] = head;
    linked[at + 1] = positive;
    linked[at + 2] = negative;
    linked[at + USES] = used;
}

// Writes one rule with the pilots in its words, and without the uses that they replace.
fn link_rule(rules: &[u64], pilots: &[u64], told: u64, rule: usize, linked: &mut [u64])
    requires { IsLent rules.now rule × IsLent linked.old rule × (MAX_TABLES ≤ length pilots.now) }
    ensures { RuleLinked rules.now pilots.now told rule linked.old linked.new }
{
    let used = uses(rules, rule);
    let positive = atoms::union(
        positive_body(rules, rule),
        atoms::union_of(pilots, MAX_TABLES, used),
    );
    let negative = atoms::union(
        negative_body(rules, rule),
        atoms::union_of(pilots, MAX_TABLES, used >> MAX_TABLES),
    );
    let left = atoms::without(used, told);
    put_rule(linked, rule, head(rules, rule), positive, negative, left);
}

// Writes all rules of the word so.
fn link_all(rules: &[u64], pilots: &[u64], told: u64, which: u64, linked: &mut [u64])
    requires { Lent rules.now which × Lent linked.old which × (MAX_TABLES ≤ length pilots.now) }
    ensures { RulesLinked rules.now pilots.now told which linked.old linked.new }
{
    for rule in atoms::each(which) {
        link_rule(rules, pilots, told, rule, linked);
    }
}

// Whether no table has a pilot; the words are gathered without a test for each, since every offered position asks.
pub fn are_none(pilots: &[u64]) -> bool
    requires { MAX_TABLES ≤ length pilots.now }
    ensures { Decides (NoPilots pilots.now) result }
{
    let mut all = 0;
    for t in 0..MAX_TABLES {
        all = atoms::union(all, pilots[t]);
    }
    all == 0
}

// Whether the rules may be copied as they are: all words are there, and no table has a pilot.
fn is_plain(rules: &[u64], pilots: &[u64]) -> bool
    requires { MAX_TABLES ≤ length pilots.now }
    ensures { Decides (Plain rules.now pilots.now) result }
{
    if rules.len() < LINKED_WORDS {
        return false;
    }
    are_none(pilots)
}

// The rules of the word with pilots in place of uses; a plain copy where there are no pilots.
pub fn link(rules: &[u64], pilots: &[u64], which: u64) -> [u64; LINKED_WORDS]
    requires { Lent rules.now which × (MAX_TABLES ≤ length pilots.now) }
    ensures { Linked rules.now pilots.now which result }
{
    let mut linked = [0u64; LINKED_WORDS];
    if rules.len() < FIRST_RULE {
        return linked;
    }
    if is_plain(rules, pilots) {
        store(&rules[0..LINKED_WORDS], &mut linked, 0);
        return linked;
    }
    store(&rules[0..FIRST_RULE], &mut linked, 0);
    link_all(rules, pilots, told_uses(pilots), which, &mut linked);
    linked
}
