// The founded step: relays that only hold each other up are down. The closure that finds them is advice: what it leaves out is dropped where the
// rules can do without it.
ghost use Rattle.std.specs.Prelude.{◌<◌};
ghost use Rattle.atoms.specs.Word.{ATOMS};
ghost use Rattle.answer_sets.specs.Lent.{IsLent, Lent};
ghost use Rattle.states.specs.Narrowing.{Narrows};
ghost use Rattle.narrowing.specs.Inputs.{AnswersInputs};

use crate::unfounded::drop_unfounded;
use answer_sets::known::body_known;
use answer_sets::rule::{head, negative_body, positive_body};
use answer_sets::truth::is_failure;
use atoms::ATOMS;
use states::State;

// The founded atoms so far; the up head atoms of rules that wait, of which one is taken in at a standstill; and the rules that may still add atoms.
#[derive(Clone, Copy)]
pub struct Closure {
    pub found: u64,
    pub waiting: u64,
    pub left: u64,
}

// The closure after a rule whose positive atoms are founded and whose body does not fail: its head atoms are founded too. With one head atom up it founds
// that one alone; with several it waits.
fn found_by(rules: &[u64], rule: usize, s: State, c: Closure) -> Closure
    requires { IsLent rules.now rule × (rule < ATOMS) }
{
    if !atoms::is_subset(positive_body(rules, rule), c.found) {
        return c;
    }
    let left = atoms::drop(c.left, rule);
    if is_failure(body_known(rules, rule, s.up, s.dropped)) {
        return Closure { left, ..c };
    }
    let head = head(rules, rule);
    let up = atoms::cut(head, s.up);
    if up == 0 {
        let barred = atoms::union(negative_body(rules, rule), s.dropped);
        return Closure {
            found: atoms::union(c.found, atoms::without(head, barred)),
            left,
            ..c
        };
    }
    if !atoms::are_apart(up, c.found) {
        return Closure { left, ..c };
    }
    if atoms::at_most_one(up) {
        return Closure {
            found: atoms::union(c.found, up),
            left,
            ..c
        };
    }
    Closure {
        waiting: atoms::union(c.waiting, up),
        ..c
    }
}

// The same for all rules left, one after the other.
fn found_by_all(rules: &[u64], which: u64, s: State, before: Closure) -> Closure
    requires { Lent rules.now which }
{
    let mut c = Closure {
        waiting: 0,
        ..before
    };
    for rule in atoms::each(atoms::cut(which, before.left)) {
        c = found_by(rules, rule, s, c);
    }
    c
}

// The closure after one round; where that would add no atom, with one that a rule waits for.
fn found_round(rules: &[u64], which: u64, s: State, c: Closure) -> Closure
    requires { Lent rules.now which }
{
    let d = found_by_all(rules, which, s, c);
    if d.found != c.found {
        return d;
    }
    if d.waiting == 0 {
        return d;
    }
    Closure {
        found: atoms::union(d.found, atoms::single(atoms::lowest(d.waiting))),
        waiting: 0,
        left: d.left,
    }
}

// The atoms that are founded on those of the start: rounds until one adds nothing. Nothing is promised of them.
fn founded_atoms(rules: &[u64], which: u64, s: State, start: u64) -> u64
    requires { Lent rules.now which }
{
    let mut found = start;
    let mut c = Closure {
        found: start,
        waiting: 0,
        left: which,
    };
    for _ in 0..ATOMS {
        c = found_round(rules, which, s, c);
        if c.found == found {
            return found;
        }
        found = c.found;
    }
    found
}

// The founded step: what is not founded on the inputs is dropped.
pub fn founded_step(rules: &[u64], which: u64, inputs: u64, s: State) -> State
    requires { Lent rules.now which }
    ensures { Narrows (AnswersInputs rules.now which inputs) s result }
{
    let start = atoms::without(inputs, s.dropped);
    let found = founded_atoms(rules, which, s, start);
    drop_unfounded(rules, which, inputs, atoms::outside(found), s)
}
