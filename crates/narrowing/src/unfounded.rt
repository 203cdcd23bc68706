// Unfounded atoms: atoms that no rule needs are down. Which atoms are asked about is free.
ghost use Rattle.std.specs.Prelude.{◌≡◌, true};
ghost use Rattle.answer_sets.specs.Lent.{IsLent, Lent};
ghost use Rattle.states.specs.Narrowing.{Narrows};
ghost use Rattle.narrowing.specs.Inputs.{AnswersInputs};
ghost use Rattle.narrowing.specs.Unfounded.{Spares, Unfounded};

use answer_sets::known::body_known;
use answer_sets::rule::{head, negative_body, positive_body};
use answer_sets::truth::is_failure;
use states::State;

// Whether the rule is known to do without the atoms of x: it has none in its head, but for those it wants dropped; or its body wants one up, or
// a dropped atom; or another head atom is up; or its body fails, or fails without them.
fn spares(rules: &[u64], rule: usize, x: u64, s: State) -> bool
    requires { IsLent rules.now rule }
    ensures { result ≡ true → Spares rules.now rule x s }
{
    let head = head(rules, rule);
    let own = atoms::without(head, negative_body(rules, rule));
    if atoms::are_apart(own, x) {
        return true;
    }
    if !atoms::are_apart(positive_body(rules, rule), atoms::union(s.dropped, x)) {
        return true;
    }
    if !atoms::are_apart(atoms::without(head, x), s.up) {
        return true;
    }
    if is_failure(body_known(rules, rule, s.up, s.dropped)) {
        return true;
    }
    let up = atoms::without(s.up, x);
    let dropped = atoms::union(s.dropped, x);
    is_failure(body_known(rules, rule, up, dropped))
}

// Whether all rules of the word are known to do without the atoms.
fn is_unfounded(rules: &[u64], which: u64, x: u64, s: State) -> bool
    requires { Lent rules.now which }
    ensures { result ≡ true → Unfounded rules.now which x s }
{
    for rule in atoms::each(which) {
        if !spares(rules, rule, x, s) {
            return false;
        }
    }
    true
}

// The state in which those of the atoms that are no inputs are dropped, if all rules can do without them.
pub fn drop_unfounded(rules: &[u64], which: u64, inputs: u64, all: u64, s: State) -> State
    requires { Lent rules.now which }
    ensures { Narrows (AnswersInputs rules.now which inputs) s result }
{
    let x = atoms::without(all, atoms::union(inputs, s.dropped));
    if x == 0 {
        return s;
    }
    if !is_unfounded(rules, which, x, s) {
        return s;
    }
    State {
        up: s.up,
        dropped: atoms::union(s.dropped, x),
    }
}
