// One position after the other: the least answer set of a plan from the start, or above a position.
#![tactic(auto)]

ghost use Rattle.plan.specs.Record.{Fitting};
ghost use Rattle.plan_meaning.specs.Settled.{Settles};
ghost use Rattle.finding.specs.Least.{LeastOf, Behind};
ghost use Rattle.finding.specs.Gather.{Added, Sought};
ghost use Rattle.stepping.specs.Followed.{Followed};
ghost use Rattle.stepping.specs.Batch.{Stepped};

use finding::batch::gather_all;
use finding::next::next;
use plan::{Fault, Plan};

// The next answer set of all rules of the record, with its given atoms as facts.
pub fn next_of(plan: Plan, from: Option<u64>) -> Option<u64>
    requires { Fitting plan }
    ensures { LeastOf (λ M. Settles plan M × Behind from M) result }
{
    let given = plan.once.given.word;
    next(&plan.rules, atoms::first(plan.rule_count), given, from)
}

// The next position of a plan as bytes, if one is left, or the fault for which the plan is refused. Units and edges play no part in it, and neither
// does the graph.
pub fn next_position(plan: &[u8], from: Option<u64>) -> Result<Option<u64>, Fault>
    ensures { Followed plan.now from result }
{
    let read = reading::read_plan(plan)?;
    Ok(next_of(read, from))
}

// Fills the words with the next answer sets of all rules of the record, with its given atoms as facts, that are not among the words passed over:
// how many there are.
pub fn gather_of(plan: Plan, from: Option<u64>, passed: &[u64], out: &mut [u64]) -> usize
    requires { Fitting plan }
    ensures { Added (λ M. Settles plan M × Sought from passed.now M) out.old 0 out.new result }
{
    let given = plan.once.given.word;
    gather_all(
        &plan.rules,
        atoms::first(plan.rule_count),
        given,
        from,
        passed,
        out,
    )
}

// The next positions of a plan as bytes, rising, until none is left or the words are full: how many there are, or the fault for which the plan is
// refused.
pub fn next_positions(plan: &[u8], from: Option<u64>, out: &mut [u64]) -> Result<usize, Fault>
    ensures { Stepped plan.now from out.old out.new result }
{
    let record = reading::read_plan(plan)?;
    Ok(gather_of(record, from, &[], out))
}
