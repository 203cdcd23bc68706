// The support step: an atom that is no input is up only through a rule that has no other head atom up.
ghost use Rattle.std.specs.Prelude.{◌<◌};
ghost use Rattle.atoms.specs.Word.{ATOMS};
ghost use Rattle.answer_sets.specs.Lent.{lent, IsLent, Lent};
ghost use Rattle.states.specs.Narrowing.{Narrows};
ghost use Rattle.narrowing.specs.Support.{Supports, Excluded, Supporters, SupportedIfUp};

use answer_sets::Truth;
use answer_sets::known::body_known;
use answer_sets::rule::{head, negative_body, positive_body};
use states::State;

// Whether the rule may support the atom at a completion, for all that is known.
fn may_support(rules: &[u64], rule: usize, atom: usize, s: State) -> bool
    requires { IsLent rules.now rule × (atom < ATOMS) }
    ensures { Excluded rules.now rule atom s result }
{
    let others = atoms::drop(head(rules, rule), atom);
    if !atoms::are_apart(others, s.up) {
        return false;
    }
    body_known(rules, rule, s.up, s.dropped) != Truth::Fails
}

// The word without its lowest rules, as far as these cannot support the atom.
fn supporters(rules: &[u64], backing: u64, atom: usize, s: State) -> u64
    requires { Lent rules.now backing × (atom < ATOMS) }
    ensures { Supporters rules.now backing atom s result }
{
    for rule in atoms::each(backing) {
        if may_support(rules, rule, atom, s) {
            return atoms::without(backing, atoms::first(rule));
        }
    }
    0
}

// The state in which the rule supports the atom: its body holds, and no other head atom is up.
fn held_by(rules: &[u64], rule: usize, atom: usize, s: State) -> State
    requires { IsLent rules.now rule × (atom < ATOMS) }
    ensures { Narrows (λ M. Supports (lent rules.now) rule M atom) s result }
{
    let others = atoms::drop(head(rules, rule), atom);
    let down = atoms::union(negative_body(rules, rule), others);
    State {
        up: atoms::union(s.up, positive_body(rules, rule)),
        dropped: atoms::union(s.dropped, down),
    }
}

// The state after one atom that only rules of the word may support: with no such rule left it is dropped, and where it is up and one is left, that
// rule does.
pub fn support_step(rules: &[u64], backing: u64, atom: usize, s: State) -> State
    requires { Lent rules.now backing × (atom < ATOMS) }
    ensures { Narrows (SupportedIfUp rules.now backing atom) s result }
{
    let left = supporters(rules, backing, atom, s);
    if left == 0 {
        return State {
            up: s.up,
            dropped: atoms::union(s.dropped, atoms::single(atom)),
        };
    }
    if atoms::are_apart(s.up, atoms::single(atom)) {
        return s;
    }
    let rule = atoms::lowest(left);
    let others = supporters(rules, atoms::drop(left, rule), atom, s);
    if others != 0 {
        return s;
    }
    held_by(rules, rule, atom, s)
}
