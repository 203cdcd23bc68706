// A whole sheet judged: a plan and up to 256 positions, eight bytes each, lowest first.
ghost use Rattle.exports.specs.ExportedSheets.{SheetJudgeHanded};

use judge::{judge_sheet, sheet_code};

// Judges the positions in turn: 256 if all are settled, the place from 0 of the first that is not, else the code of the refusal.
pub fn lucarnecress_judge_sheet(plan: &[u8], positions: &[u8]) -> u64
    ensures { SheetJudgeHanded plan.now positions.now result }
{
    sheet_code(judge_sheet(plan, positions))
}
