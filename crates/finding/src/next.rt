// The least answer set of a program behind a place.
ghost use Rattle.answer_sets.specs.AnswerSet.{AnswerSet};
ghost use Rattle.answer_sets.specs.Lent.{lent, Lent};
ghost use Rattle.finding.specs.Least.{LeastOf, Behind};

use crate::batch::gather_all;

// The least answer set from the start, or above a position; none if none is left.
pub fn next(rules: &[u64], which: u64, facts: u64, from: Option<u64>) -> Option<u64>
    requires { Lent rules.now which }
    ensures { LeastOf (λ M. AnswerSet (lent rules.now) which facts M × Behind from M) result }
{
    let passed = [0u64; 0];
    let mut out = [0u64; 1];
    let count = gather_all(rules, which, facts, from, &passed, &mut out);
    if count == 0 {
        return None;
    }
    Some(out[0])
}
