// The steps on one rule and on the support of one atom, where they are the unit's.
ghost use Rattle.std.specs.Prelude.{◌<◌};
ghost use Rattle.atoms.specs.Word.{ATOMS};
ghost use Rattle.plan.specs.Limits.{MAX_RULES};
ghost use Rattle.answer_sets.specs.Program.{SatisfiesAll};
ghost use Rattle.answer_sets.specs.Lent.{lent, Lent};
ghost use Rattle.states.specs.Narrowing.{Narrows};
ghost use Rattle.narrowing.specs.Inputs.{AnswersInputs};
ghost use Rattle.narrowing.specs.Backers.{Backers};

use crate::support_step::support_step;
use answer_sets::rule_pass::rule_step;
use states::State;

// The state after one rule, if it is numbered.
pub fn apply_rule(rules: &[u64], which: u64, rule: usize, s: State) -> State
    requires { Lent rules.now which × (rule < MAX_RULES) }
    ensures { Narrows (SatisfiesAll (lent rules.now) which) s result }
{
    if atoms::are_apart(which, atoms::single(rule)) {
        return s;
    }
    rule_step(rules, rule, s)
}

// The state after the support of one atom, if it is no input.
pub fn apply_support(
    rules: &[u64],
    which: u64,
    inputs: u64,
    backers: &[u64],
    atom: usize,
    s: State,
) -> State
    requires { Lent rules.now which × Backers rules.now which backers.now × (atom < ATOMS) }
    ensures { Narrows (AnswersInputs rules.now which inputs) s result }
{
    if !atoms::are_apart(inputs, atoms::single(atom)) {
        return s;
    }
    support_step(rules, backers[atom], atom, s)
}
