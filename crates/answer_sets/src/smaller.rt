// The subset test: whether some proper subset of a position has all the facts and satisfies each rule of a word.
// It grows from the facts: what every such subset must have goes up, and only then is an atom tried both ways.
ghost use Rattle.std.specs.Prelude.{◌≡◌, true, false, ◌<◌, ◌^◌};
ghost use Rattle.atoms.specs.Word.{ATOMS};
ghost use Rattle.answer_sets.specs.Lent.{lent, Lent};
ghost use Rattle.answer_sets.specs.Memo.{Memo};
ghost use Rattle.answer_sets.specs.RulePass.{Sifted};
ghost use Rattle.answer_sets.specs.Test.{SubsetTested, SmallerSet};
ghost use Rattle.answer_sets.specs.SubsetTest.{Confines, Finds, TestsBetween, Tries, Lasts, subsets_of};

use crate::memo::{memo_tells, write_memo};
use crate::reduct::find_unsatisfied;
use crate::rounds::rounds;
use crate::rule_pass::Passed;
use crate::tried::{candidates, tried_next};
use atoms::EVERY_ATOM;
use states::{State, decide, undecided};

// As many branchings as it takes.
pub const UNBOUNDED: u64 = EVERY_ATOM;

// Whether there is a smaller set, and if so one that was found. Which one it is, is free. Beside it stands how many branchings are left: where that is
// none, nothing is said.
#[derive(Clone, Copy)]
pub struct Smaller {
    pub found: bool,
    pub set: u64,
    pub left: u64,
}

// That there is none.
pub fn none_smaller(left: u64) -> Smaller
    ensures { result ≡ record { found = false; set = 0; left = left } }
{
    Smaller {
        found: false,
        set: 0,
        left,
    }
}

// One branching less, unless there are as many as it takes.
fn spend(left: u64) -> u64
    requires { left ≡ 0 → ⊥ }
    ensures { Lasts left result }
{
    if left == UNBOUNDED {
        return left;
    }
    left - 1
}

// Whether some completion of the state, to which the rounds have nothing to say, is a proper subset of the position and satisfies each rule of the word,
// and one that does; nothing is said where that takes more than `left` branchings.
pub fn some_between(rules: &[u64], which: u64, position: u64, s: State, left: u64) -> Smaller
    requires { Lent rules.now which × Confines position s.dropped }
    ensures { Tries (lent rules.now) which position s left result }
{
    if !atoms::are_apart(s.up, s.dropped) {
        return none_smaller(left);
    }
    if s.up == position {
        return none_smaller(left);
    }
    let Some(rule) = find_unsatisfied(rules, which, s.up) else {
        return Smaller {
            found: true,
            set: s.up,
            left,
        };
    };
    let free = undecided(s.up, s.dropped);
    let choice = candidates(rules, rule, free);
    if choice == 0 {
        return none_smaller(left);
    }
    if left == 0 {
        return none_smaller(left);
    }
    let tried = tried_next(rules, which, position, s.dropped, free, choice);
    let atom = atoms::lowest(tried);
    let up = rounds(rules, which, position, decide(s, atom, true));
    let raised = some_between(rules, up.left, position, up.state, spend(left));
    if raised.found {
        return raised;
    }
    if raised.left == 0 {
        return raised;
    }
    let down = rounds(rules, which, position, decide(s, atom, false));
    some_between(rules, down.left, position, down.state, raised.left)
}

// What the rounds leave of the subsets of the position that have all the facts.
pub fn open_test(rules: &[u64], which: u64, facts: u64, position: u64) -> Passed
    requires { Lent rules.now which }
    ensures { Sifted (lent rules.now) which (subsets_of facts position) which result }
{
    let start = State {
        up: facts,
        dropped: atoms::outside(position),
    };
    rounds(rules, which, position, start)
}

// Whether it is told without a trial that there is none: the whole position is up, or the rounds leave what the last test left that said none, as far as
// the rules look.
pub fn is_told(rules: &[u64], memo: &[u64], position: u64, p: Passed) -> bool
    requires { Lent rules.now p.left × Memo rules.now memo.now }
    ensures told { result ≡ true → Finds (lent rules.now) p.left position p.state false 0 }
    ensures word { p.state.up < 2 ^ ATOMS }
{
    let t = p.state;
    if t.up == position {
        return true;
    }
    memo_tells(rules, memo, position, p)
}

// Whether some proper subset of the position has all the facts and satisfies each rule of the word, and one that does. What neither the rounds nor the memo
// tell is left to `between`: it is asked of the rules and the state that the rounds leave.
pub fn some_smaller_by<F: Fn(u64, State) -> Smaller>(
    rules: &[u64],
    which: u64,
    facts: u64,
    position: u64,
    memo: &mut [u64],
    between: F,
) -> Smaller
    requires lent { Lent rules.now which × Memo rules.now memo.old }
    requires finds { TestsBetween rules.now position (F.pre between) (F.post between) }
    ensures tested { SubsetTested (lent rules.now) which facts position result.found }
    ensures set { SmallerSet (lent rules.now) which facts position result.found result.set }
    ensures memo { Memo rules.now memo.new }
{
    let p = open_test(rules, which, facts, position);
    if is_told(rules, memo, position, p) {
        return none_smaller(UNBOUNDED);
    }
    let smaller = between(p.left, p.state);
    if smaller.found {
        return smaller;
    }
    write_memo(memo, p);
    smaller
}

// The same by the plain test, with as many branchings as it takes.
pub fn some_smaller(
    rules: &[u64],
    which: u64,
    facts: u64,
    position: u64,
    memo: &mut [u64],
) -> Smaller
    requires { Lent rules.now which × Memo rules.now memo.old }
    ensures tested { SubsetTested (lent rules.now) which facts position result.found }
    ensures set { SmallerSet (lent rules.now) which facts position result.found result.set }
    ensures memo { Memo rules.now memo.new }
{
    some_smaller_by(rules, which, facts, position, memo, |left, s| {
        some_between(rules, left, position, s, UNBOUNDED)
    })
}
