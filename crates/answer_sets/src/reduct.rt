// A word of rule numbers at a position: whether all are satisfied, and the rules that the reduct keeps.
ghost use Rattle.std.specs.Prelude.{◌≡◌, ◌<◌};
ghost use Rattle.answer_sets.specs.Lent.{lent, IsLent, Lent};
ghost use Rattle.plan.specs.Limits.{MAX_RULES};
ghost use Rattle.answer_sets.specs.SubsetTest.{Unsatisfied};
ghost use Rattle.answer_sets.specs.Test.{satisfies as satisfies_at, satisfies_all, kept, kept_if};

use crate::known::body_holds;
use crate::rule::head;

// Whether the position satisfies the rule: its body fails, or a head atom is up.
fn satisfies(rules: &[u64], rule: usize, position: u64) -> bool
    requires { IsLent rules.now rule }
    ensures { result ≡ satisfies_at (lent rules.now) rule position }
{
    if !body_holds(rules, rule, position) {
        return true;
    }
    !atoms::are_apart(head(rules, rule), position)
}

// A rule numbered in `which` that the position does not satisfy, if there is one.
pub fn find_unsatisfied(rules: &[u64], which: u64, position: u64) -> Option<usize>
    requires { Lent rules.now which }
    ensures { Unsatisfied (lent rules.now) which position result }
{
    for rule in atoms::each(which) {
        if !satisfies(rules, rule, position) {
            return Some(rule);
        }
    }
    None
}

// Whether the position satisfies each rule numbered in `which`.
pub fn all_satisfied(rules: &[u64], which: u64, position: u64) -> bool
    requires { Lent rules.now which }
    ensures { result ≡ satisfies_all (lent rules.now) which position }
{
    find_unsatisfied(rules, which, position).is_none()
}

// The word without the rule where its body fails at the position.
fn kept_if(rules: &[u64], rule: usize, position: u64, word: u64) -> u64
    requires { IsLent rules.now rule × (rule < MAX_RULES) }
    ensures { result ≡ kept_if (lent rules.now) rule position word }
{
    if body_holds(rules, rule, position) {
        return word;
    }
    atoms::drop(word, rule)
}

// The word of the rules numbered in `which` whose body holds at the position.
pub fn kept_rules(rules: &[u64], which: u64, position: u64) -> u64
    requires { Lent rules.now which }
    ensures { result ≡ kept (lent rules.now) which position }
{
    let mut word = which;
    for rule in atoms::each(which) {
        word = kept_if(rules, rule, position, word);
    }
    word
}
