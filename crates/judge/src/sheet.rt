// A whole sheet judged (document 02, S-12): up to 256 positions in any order, eight bytes each, lowest first.
ghost use Rattle.std.specs.Prelude.{◌≡◌};
ghost use Rattle.plan.specs.Record.{Fitting};
ghost use Rattle.judge.specs.declared.sheet.SheetFault.TheVariants.{Refused};
ghost use Rattle.judge.specs.JudgedSheets.{bad_bytes, places_judged, SheetJudged, sheet_code};

use answer_sets::judge_set;
use answer_sets::memo::blank_memo;
use plan::{CODE_STEP, Fault, Plan, refusal_code};
use reading::{WORD_BYTES, read_word};

// How many positions a sheet may have.
pub const MAX_POSITIONS: usize = 256;

// Why the question about a sheet is refused: the plan is, or the bytes are no sheet.
#[derive(Clone, Copy)]
pub enum SheetFault {
    Refused(Fault),
    BadSheet,
}

impl From<Fault> for SheetFault {
    ghost from_gives = { λ f e. e ≡ Refused f };

    fn from(fault: Fault) -> SheetFault {
        SheetFault::Refused(fault)
    }
}

// The number of the refusal, document 02, S-12; its spot is 0.
pub const BAD_SHEET: u64 = 24;

// Whether so many bytes are over 256 positions, or not whole ones.
pub fn is_bad_sheet(bytes: usize) -> bool
    ensures { result ≡ bad_bytes bytes }
{
    MAX_POSITIONS < bytes / WORD_BYTES || bytes % WORD_BYTES != 0
}

// The place of the first position that is no answer set of all the plan's rules with the given atoms as facts. Each is read where it stands; the memo
// of the subset test goes from one to the next.
fn judge_places(plan: Plan, positions: &[u8]) -> Option<usize>
    requires { Fitting plan }
    ensures { result ≡ places_judged plan positions.now }
{
    let whole_program = atoms::first(plan.rule_count);
    let count = positions.len() / WORD_BYTES;
    let mut memo = blank_memo();
    for place in 0..count {
        let position = read_word(positions, WORD_BYTES * place);
        let judged = judge_set(
            &plan.rules,
            whole_program,
            plan.once.given.word,
            position,
            &mut memo,
        );
        if !judged.answers {
            return Some(place);
        }
    }
    None
}

// The place of the first position of a sheet that is not settled for a plan, both as bytes; the plan is read once. Units, edges, graph and
// shown atoms play no part in it.
pub fn judge_sheet(plan: &[u8], positions: &[u8]) -> Result<Option<usize>, SheetFault>
    ensures { SheetJudged plan.now positions.now result }
{
    let read = reading::read_plan(plan)?;
    if is_bad_sheet(positions.len()) {
        return Err(SheetFault::BadSheet);
    }
    Ok(judge_places(read, positions))
}

// The answer as one number, for hosts: 256 all settled, below it the place of the first that is not, from 65,536 on a refusal.
pub fn sheet_code(answer: Result<Option<usize>, SheetFault>) -> u64
    ensures { result ≡ sheet_code answer }
{
    match answer {
        Ok(None) => MAX_POSITIONS as u64,
        Ok(Some(place)) => place as u64,
        Err(SheetFault::Refused(fault)) => refusal_code(fault),
        Err(SheetFault::BadSheet) => CODE_STEP * BAD_SHEET,
    }
}
