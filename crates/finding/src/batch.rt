// The least answer sets of a program behind a place, in lent words: those near the place first, then all others.
ghost use Rattle.answer_sets.specs.AnswerSet.{AnswerSet};
ghost use Rattle.answer_sets.specs.Lent.{lent, Lent};
ghost use Rattle.finding.specs.Gather.{Added, Sought};

use crate::ask::{desk_of, root_of, unit_of};
use crate::gather::{Query, WalkNode, dark_of, gather, place_in};
use crate::near::gather_nearest;
use learning::store::empty_store;

// Fills the words with the least answer sets behind the place that are not passed over, rising: how many there are.
pub fn gather_all(
    rules: &[u64],
    which: u64,
    facts: u64,
    from: Option<u64>,
    passed: &[u64],
    out: &mut [u64],
) -> usize
    requires { Lent rules.now which }
    ensures { Added (λ M. AnswerSet (lent rules.now) which facts M × Sought from passed.now M) out.old 0
        out.new result }
{
    let desk = desk_of(rules, which, facts);
    let unit = unit_of(&desk, which, facts);
    let mut memory = empty_store();
    let front = root_of(rules, &desk, &mut memory, unit, facts);
    let query = Query { unit, facts, from };
    let near = gather_nearest(rules, &desk, &mut memory, query, front, passed, out);
    let dark = dark_of(front.state, atoms::without(unit.inputs, facts));
    let root = WalkNode {
        front,
        known: place_in(dark, from),
    };
    let rest = Query {
        unit,
        facts,
        from: near.from,
    };
    gather(
        rules,
        &desk,
        &mut memory,
        rest,
        root,
        passed,
        out,
        near.count,
    )
}
