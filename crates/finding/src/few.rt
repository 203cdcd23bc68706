// The few constraints that leave a program without answer sets.
ghost use Rattle.std.specs.Prelude.{◌<◌};
ghost use Rattle.atoms.specs.Word.{ATOMS, ◌∪◌};
ghost use Rattle.answer_sets.specs.AnswerSet.{AnswerSet};
ghost use Rattle.answer_sets.specs.Lent.{lent, Lent};
ghost use Rattle.finding.specs.Few.{Constraints, NoneSettled, Tried, FewBlamed};
ghost use Rattle.searching.specs.Witness.{Witnessed};

use crate::ask::{ask, desk_of, root_of, unit_of};
use learning::store::empty_store;

// An answer set of the program, or that there is none.
fn any(rules: &[u64], which: u64, facts: u64) -> Option<u64>
    requires { Lent rules.now which }
    ensures { Witnessed (AnswerSet (lent rules.now) which facts) result }
{
    let desk = desk_of(rules, which, facts);
    let unit = unit_of(&desk, which, facts);
    let mut memory = empty_store();
    let root = root_of(rules, &desk, &mut memory, unit, facts);
    ask(rules, &desk, &mut memory, unit, facts, root)
}

// What is held of these where rule c is tried: all but c, if that leaves no answer set.
fn try_without(rules: &[u64], headed: u64, held: u64, facts: u64, c: usize) -> u64
    requires { Lent rules.now (headed ∪ held) × (c < ATOMS) }
    ensures { Tried rules.now headed held facts c result }
{
    let others = atoms::drop(held, c);
    let found = any(rules, atoms::union(headed, others), facts);
    match found {
        Some(_) => held,
        None => others,
    }
}

// Constraints are tried in rule order; each one whose removal still leaves no answer set is dropped. The answer is what remains.
pub fn few_constraints(rules: &[u64], headed: u64, constraints: u64, facts: u64) -> u64
    requires { Lent rules.now (headed ∪ constraints) × Constraints rules.now constraints × NoneSettled rules.now (headed ∪ constraints) facts }
    ensures { FewBlamed rules.now headed constraints facts result }
{
    let mut held = constraints;
    for c in atoms::each(constraints) {
        held = try_without(rules, headed, held, facts, c);
    }
    held
}
