// One lent rule: its words and its atoms. Where a rule's words stand is known here alone.
ghost use Rattle.std.specs.Prelude.{◌≡◌};
ghost use Rattle.atoms.specs.Word.{◌∪◌};
ghost use Rattle.answer_sets.specs.Lent.{lent, rule_count_of, IsLent, negative, looks};

use crate::uses::used_inputs;
use plan::{FIRST_RULE, RULE_WORDS};

// Binary places of a count of rules: seven count up to 127, for at most MAX_RULES rules.
pub const RULE_PLACES: usize = 7;

// How many rules the words hold.
pub fn rule_count(rules: &[u64]) -> usize
    ensures { result ≡ rule_count_of rules.now }
{
    if rules.len() < FIRST_RULE {
        return 0;
    }
    (rules.len() - FIRST_RULE) / RULE_WORDS
}

// The head's atoms.
pub fn head(rules: &[u64], rule: usize) -> u64
    requires { IsLent rules.now rule }
    ensures { result ≡ (lent rules.now).head rule }
{
    rules[FIRST_RULE + RULE_WORDS * rule]
}

// The atoms that the body wants up.
pub fn positive_body(rules: &[u64], rule: usize) -> u64
    requires { IsLent rules.now rule }
    ensures { result ≡ (lent rules.now).positive rule }
{
    rules[FIRST_RULE + RULE_WORDS * rule + 1]
}

// The atoms that the body wants dropped.
pub fn negative_body(rules: &[u64], rule: usize) -> u64
    requires { IsLent rules.now rule }
    ensures { result ≡ negative rules.now rule }
{
    rules[FIRST_RULE + RULE_WORDS * rule + 2]
}

// The atoms that the rest of the body looks at.
pub fn looks(rules: &[u64], rule: usize) -> u64
    requires { IsLent rules.now rule }
    ensures { result ≡ looks rules.now rule }
{
    atoms::union(negative_body(rules, rule), used_inputs(rules, rule))
}

// All atoms of the rule: its head's and those that its body looks at.
pub fn rule_atoms(rules: &[u64], rule: usize) -> u64
    requires { IsLent rules.now rule }
    ensures { result ≡ (lent rules.now).head rule ∪ ((lent rules.now).positive rule ∪ looks rules.now rule) }
{
    let body = atoms::union(positive_body(rules, rule), looks(rules, rule));
    atoms::union(head(rules, rule), body)
}
