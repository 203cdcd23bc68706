// The few constraints that empty a plan, or its least position if it has one.
#![tactic(auto)]

ghost use Rattle.std.specs.Prelude.{◌≡◌, ◌<◌};
ghost use Rattle.atoms.specs.Word.{ATOMS, Has};
ghost use Rattle.atoms.specs.Collected.{Collects};
ghost use Rattle.plan.specs.Record.{Fitting};
ghost use Rattle.answer_sets.specs.Lent.{lent, IsLent, Lent};
ghost use Rattle.blaming.specs.Blamed.{Positionless, held_in, Blames, Blamed};
ghost use Rattle.blaming.specs.Sifted.{unless_headed};

use answer_sets::rule;
use finding::few::few_constraints;
use plan::{Fault, Plan};
use stepping::next_of;

// The least position, or the constraints that are held where there is none.
#[derive(Clone, Copy)]
pub enum Blame {
    Position(u64),
    Held(u64),
}

// The word without the rule where it has a head.
fn unless_headed(rules: &[u64], rule: usize, word: u64) -> u64
    requires { IsLent rules.now rule × (rule < ATOMS) }
    ensures { result ≡ unless_headed ((lent rules.now).head rule) rule word }
{
    if rule::head(rules, rule) == 0 {
        return word;
    }
    atoms::drop(word, rule)
}

// The constraints among the rules numbered in `which`.
fn constraints_of(rules: &[u64], which: u64) -> u64
    requires { Lent rules.now which }
    ensures { Collects (λ i. Has which i × ((lent rules.now).head i ≡ 0)) result }
{
    let mut word = which;
    for rule in atoms::each(which) {
        word = unless_headed(rules, rule, word);
    }
    word
}

// What is held of the constraints of a record without a position.
fn held_of(plan: Plan) -> u64
    requires { Fitting plan × Positionless plan }
    ensures { (result ≡ held_in plan) × Blames plan result }
{
    let all = atoms::first(plan.rule_count);
    let constraints = constraints_of(&plan.rules, all);
    let headed = atoms::without(all, constraints);
    few_constraints(&plan.rules, headed, constraints, plan.once.given.word)
}

// What a plan as bytes is blamed on, or the fault for which it is refused. Units and edges play no part in it, and neither does the graph.
pub fn blame_plan(plan: &[u8]) -> Result<Blame, Fault>
    ensures { Blamed plan.now result }
{
    let read = reading::read_plan(plan)?;
    match next_of(read, None) {
        Some(position) => Ok(Blame::Position(position)),
        None => Ok(Blame::Held(held_of(read))),
    }
}
