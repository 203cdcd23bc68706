// The answer-set test of one position, over lent rules and a word of their numbers; and the same for any lent words and any numbers.
ghost use Rattle.std.specs.Prelude.{◌≡◌, false, not, MatchOption};
ghost use Rattle.answer_sets.specs.Lent.{lent, Lent, numbered};
ghost use Rattle.answer_sets.specs.Memo.{Memo};
ghost use Rattle.answer_sets.specs.SubsetTest.{TestsBetween};
ghost use Rattle.answer_sets.specs.Test.{SubsetTested, TestDue, TestSettled, answer_set, RefutedBy};

use crate::memo::blank_memo;
use crate::reduct::{all_satisfied, kept_rules};
use crate::rule::rule_count;
use crate::smaller::{Smaller, some_smaller, some_smaller_by};
use plan::MAX_RULES;
use states::State;

// Whether a position is an answer set, and if it is none, what shows it: a smaller set, or the position itself. Which smaller set it is, is free.
#[derive(Clone, Copy)]
pub struct Judged {
    pub answers: bool,
    pub smaller: u64,
}

// The rules that the reduct at the position keeps, where it has the facts and satisfies them. Where nothing is handed out it is no answer set, and shows
// that itself.
fn kept_where_met(rules: &[u64], which: u64, facts: u64, position: u64) -> Option<u64>
    requires { Lent rules.now which }
    ensures { MatchOption result (TestSettled (lent rules.now) which facts position) (λ word. TestDue (lent rules.now) which facts position word) }
{
    if !atoms::is_subset(facts, position) {
        return None;
    }
    let kept = kept_rules(rules, which, position);
    if !all_satisfied(rules, kept, position) {
        return None;
    }
    Some(kept)
}

// The position itself shows that it is no answer set.
fn unmet(position: u64) -> Judged
    ensures { result ≡ record { answers = false; smaller = position } }
{
    Judged {
        answers: false,
        smaller: position,
    }
}

// What the subset test of the kept rules says.
fn judged_by(smaller: Smaller) -> Judged
    ensures { result ≡ record { answers = not smaller.found; smaller = smaller.set } }
{
    Judged {
        answers: !smaller.found,
        smaller: smaller.set,
    }
}

// Whether the position is an answer set of the rules numbered in `which` with the facts added, and what shows that it is none. The subset test's memo
// may go from one position to the next.
pub fn judge_set(rules: &[u64], which: u64, facts: u64, position: u64, memo: &mut [u64]) -> Judged
    requires { Lent rules.now which × Memo rules.now memo.old }
    ensures answers { result.answers ≡ answer_set (lent rules.now) which facts position }
    ensures refuted { RefutedBy (lent rules.now) which facts position result.answers result.smaller }
    ensures memo { Memo rules.now memo.new }
{
    let Some(kept) = kept_where_met(rules, which, facts, position) else {
        return unmet(position);
    };
    judged_by(some_smaller(rules, kept, facts, position, memo))
}

// The same, where what the subset test has to try is left to `between`.
pub fn judge_set_by<F: Fn(u64, State) -> Smaller>(
    rules: &[u64],
    which: u64,
    facts: u64,
    position: u64,
    memo: &mut [u64],
    between: F,
) -> Judged
    requires lent { Lent rules.now which × Memo rules.now memo.old }
    requires finds { TestsBetween rules.now position (F.pre between) (F.post between) }
    ensures answers { result.answers ≡ answer_set (lent rules.now) which facts position }
    ensures refuted { RefutedBy (lent rules.now) which facts position result.answers result.smaller }
    ensures memo { Memo rules.now memo.new }
{
    let Some(kept) = kept_where_met(rules, which, facts, position) else {
        return unmet(position);
    };
    let smaller = some_smaller_by(rules, kept, facts, position, memo, between);
    judged_by(smaller)
}

// Only whether the position is an answer set.
pub fn is_answer_set(rules: &[u64], which: u64, facts: u64, position: u64) -> bool
    requires { Lent rules.now which }
    ensures { result ≡ answer_set (lent rules.now) which facts position }
{
    let mut memo = blank_memo();
    judge_set(rules, which, facts, position, &mut memo).answers
}

// Of the numbers in a word those of the n rules lent, as far as their words are there.
pub fn lent_numbers(rules: &[u64], n: usize, which: u64) -> u64
    ensures { (result ≡ numbered rules.now n which) × Lent rules.now result }
{
    let there = n.min(rule_count(rules));
    atoms::cut(which, atoms::first(there.min(MAX_RULES)))
}

// The subset test over the n rules lent: whether some proper subset of the position has all the facts and satisfies
// each rule so numbered. Bits with no rule are ignored; facts that are not all in the position give no.
pub fn has_smaller(rules: &[u64], n: usize, kept: u64, facts: u64, position: u64) -> bool
    ensures { SubsetTested (lent rules.now) (numbered rules.now n kept) facts position result }
{
    let mut memo = blank_memo();
    let numbers = lent_numbers(rules, n, kept);
    some_smaller(rules, numbers, facts, position, &mut memo).found
}

// The answer-set test over the n rules lent. Bits with no rule are ignored.
pub fn judge_position(rules: &[u64], n: usize, which: u64, facts: u64, position: u64) -> bool
    ensures { result ≡ answer_set (lent rules.now) (numbered rules.now n which) facts position }
{
    is_answer_set(rules, lent_numbers(rules, n, which), facts, position)
}
