// What a sheet lacks (beside document 02, S-12, which "doesn't say the sheet is full"): the least answer set of a plan that is not among its positions.
#![tactic(auto)]

ghost use Rattle.std.specs.Prelude.{◌≤◌, length};
ghost use Rattle.plan.specs.Record.{Fitting};
ghost use Rattle.plan_meaning.specs.Settled.{Settles};
ghost use Rattle.judge.specs.JudgedSheets.{MAX_POSITIONS, positions_in};
ghost use Rattle.finding.specs.Least.{LeastOf};
ghost use Rattle.auditing.specs.Audit.{WordsRead, OnSheet, Audited};

use judge::{MAX_POSITIONS, SheetFault, is_bad_sheet};
use plan::Plan;
use reading::{WORD_BYTES, read_word};
use stepping::gather_of;

// Writes the positions of a sheet down as words: how many there are.
fn read_words(positions: &[u8], words: &mut [u64]) -> usize
    requires { positions_in positions.now ≤ length words.old }
    ensures { WordsRead positions.now words.new result }
{
    let count = positions.len() / WORD_BYTES;
    for place in 0..count {
        words[place] = read_word(positions, WORD_BYTES * place);
    }
    count
}

// The least answer set of the record that is not on the sheet, if there is one.
fn missing_of(plan: Plan, positions: &[u8]) -> Option<u64>
    requires { Fitting plan × (positions_in positions.now ≤ MAX_POSITIONS) }
    ensures { LeastOf (λ M. Settles plan M × ¬ OnSheet positions.now M) result }
{
    let mut words = [0u64; MAX_POSITIONS];
    let count = read_words(positions, &mut words);
    let mut out = [0u64; 1];
    let found = gather_of(plan, None, &words[0..count], &mut out);
    if found == 0 {
        return None;
    }
    Some(out[0])
}

// The least position that a sheet lacks of a plan, both as bytes, or none where it is full; or why the question is refused. Units, edges, graph and
// shown atoms play no part in it.
pub fn first_missing(plan: &[u8], positions: &[u8]) -> Result<Option<u64>, SheetFault>
    ensures { Audited plan.now positions.now result }
{
    let read = reading::read_plan(plan)?;
    if is_bad_sheet(positions.len()) {
        return Err(SheetFault::BadSheet);
    }
    Ok(missing_of(read, positions))
}
