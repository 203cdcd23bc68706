// The single-position question: whether a position is settled for a plan, or why the plan is refused; and the same of a whole sheet.
#![tactic(auto)]

mod sheet;

ghost use Rattle.std.specs.Prelude.{◌≡◌};
ghost use Rattle.plan.specs.Record.{Fitting};
ghost use Rattle.plan_meaning.specs.Settled.{settled};
ghost use Rattle.judge.specs.Answers.{Judged, judge_code};

use plan::{Fault, Plan, refusal_code};
pub use sheet::{BAD_SHEET, MAX_POSITIONS, SheetFault, is_bad_sheet, judge_sheet, sheet_code};

// Whether the position is an answer set of all the plan's rules as one set, with the given atoms as facts.
fn is_settled(plan: Plan, position: u64) -> bool
    requires { Fitting plan }
    ensures { result ≡ settled plan position }
{
    let whole_program = atoms::first(plan.rule_count);
    answer_sets::is_answer_set(&plan.rules, whole_program, plan.once.given.word, position)
}

// Whether the position is settled for a plan as bytes. Units and edges play no part in it, and neither does the graph.
pub fn judge(plan: &[u8], position: u64) -> Result<bool, Fault>
    ensures { Judged plan.now position result }
{
    let read = reading::read_plan(plan)?;
    Ok(is_settled(read, position))
}

// The answer as one number, for hosts: 1 settled, 0 not settled, from 65,536 on a refusal.
pub fn answer_code(answer: Result<bool, Fault>) -> u64
    ensures { result ≡ judge_code answer }
{
    match answer {
        Ok(true) => 1,
        Ok(false) => 0,
        Err(fault) => refusal_code(fault),
    }
}
