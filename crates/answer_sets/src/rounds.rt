// Rounds over rules, one after the other.
ghost use Rattle.std.specs.Prelude.{◌≡◌, true};
ghost use Rattle.answer_sets.specs.Lent.{lent, Lent};
ghost use Rattle.answer_sets.specs.RulePass.{Sifted};
ghost use Rattle.states.specs.State.{undecided as undecided_of};

use crate::rule_pass::{Passed, rule_pass};
use states::{State, undecided};

// Whether another round may have something to say: something may still complete the state, it is not the whole position, and the last round, which
// began from `before`, decided something.
fn is_moving(position: u64, before: State, t: State) -> bool
    ensures { result ≡ true → undecided_of t.up t.dropped ≡ undecided_of before.up before.dropped → ⊥ }
{
    if !atoms::are_apart(t.up, t.dropped) {
        return false;
    }
    if t.up == position {
        return false;
    }
    if undecided(t.up, t.dropped) == undecided(before.up, before.dropped) {
        return false;
    }
    true
}

// The state after rounds over the rules of the word until none decides anything, and those of them that some completion of it may not satisfy.
pub fn rounds(rules: &[u64], which: u64, position: u64, s: State) -> Passed
    requires { Lent rules.now which }
    ensures { Sifted (lent rules.now) which s which result }
{
    let mut before = s;
    let mut p = rule_pass(rules, which, s);
    while is_moving(position, before, p.state) {
        before = p.state;
        p = rule_pass(rules, p.left, before);
    }
    p
}
