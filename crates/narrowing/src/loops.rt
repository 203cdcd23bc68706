// Which atoms may hold each other up, by the rules' words. It shows where the founded step is worth its time.
ghost use Rattle.answer_sets.specs.Lent.{IsLent, Lent};
ghost use Rattle.narrowing.specs.Loops.{HeldMore, HeldAmong, Looped};

use answer_sets::rule::{head, positive_body};
use atoms::ATOMS;

// Of the atoms those in the head of a rule with a positive atom among them, added to the others found so far.
fn held_on(rules: &[u64], rule: usize, within: u64, held: u64) -> u64
    requires { IsLent rules.now rule }
    ensures { HeldMore rules.now rule within held result }
{
    if atoms::are_apart(positive_body(rules, rule), within) {
        return held;
    }
    atoms::union(held, atoms::cut(within, head(rules, rule)))
}

// So for all rules of the word.
fn held_on_all(rules: &[u64], which: u64, within: u64) -> u64
    requires { Lent rules.now which }
    ensures { HeldAmong rules.now which within result }
{
    let mut held = 0;
    for rule in atoms::each(which) {
        held = held_on(rules, rule, within, held);
    }
    held
}

// The atoms that depend on a positive loop of the rules: with none the founded step has nothing to say beyond the support steps.
pub fn looped_atoms(rules: &[u64], which: u64) -> u64
    requires { Lent rules.now which }
    ensures { Looped rules.now which result }
{
    let mut within = atoms::first(ATOMS);
    let mut held = held_on_all(rules, which, within);
    while held != within {
        within = held;
        held = held_on_all(rules, which, within);
    }
    within
}
