// What a sheet lacks, for other languages.
ghost use Rattle.auditing.specs.Audit.{audit_code};
ghost use Rattle.exports.specs.Replies.{Reply};
ghost use Rattle.exports.specs.Audits.{lack_in, MissingHanded};

use crate::steps::hand_word;
use auditing::first_missing;
use judge::{BAD_SHEET, SheetFault};
use plan::{CODE_STEP, refusal_code};

// The code of the result; a position goes into the first lent word, if there is room.
fn hand_audit(said: Result<Option<u64>, SheetFault>, found: &mut [u64]) -> u64
    ensures { Reply audit_code lack_in said found.old found.new result }
{
    match said {
        Ok(None) => 0,
        Ok(Some(position)) => hand_word(position, found, 1),
        Err(SheetFault::Refused(fault)) => refusal_code(fault),
        Err(SheetFault::BadSheet) => CODE_STEP * BAD_SHEET,
    }
}

// What a sheet lacks: 0 if every position of the plan is on it, 1 with the least one that is not in the first lent word, else the code of the refusal.
pub fn lucarnecress_missing(plan: &[u8], positions: &[u8], found: &mut [u64]) -> u64
    ensures { MissingHanded plan.now positions.now found.old found.new result }
{
    hand_audit(first_missing(plan, positions), found)
}
