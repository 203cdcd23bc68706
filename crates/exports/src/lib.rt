// The functions that other languages call: a slice passes as a pointer and a length.
#![tactic(auto)]

mod audits;
mod batches;
mod blame;
mod pair;
mod readings;
mod rows;
mod sheets;
mod steps;

ghost use Rattle.std.specs.Prelude.{◌≡◌};
ghost use Rattle.exports.specs.HandedOut.{outcome_code, copied, ListHanded, JudgeHanded, SheetHanded, CountHanded, CommonHanded};

use crate::pair::write_pair;
pub use audits::lucarnecress_missing;
pub use batches::{lucarnecress_first_positions, lucarnecress_next_positions};
pub use blame::lucarnecress_blame;
use judge::answer_code;
use plan::{COUNTS, Fault, TABLE_WORDS, refusal_code};
use plan_sheet::{write_plan_sheet, written_bytes};
use questions::{common_atoms, count_words, counted_code};
pub use readings::{
    lucarnecress_reading_compare, lucarnecress_reading_largest, lucarnecress_reading_number,
    lucarnecress_reading_of, lucarnecress_reading_sum,
};
pub use rows::{lucarnecress_positions_of_rows, lucarnecress_rows};
pub use sheets::lucarnecress_judge_sheet;
pub use steps::{lucarnecress_first, lucarnecress_next};
use unit_lists::list_positions;

// 0 for a plan that is listed, and 65536 times the number plus the spot for a refusal.
fn outcome_code(outcome: Result<(), Fault>) -> u64
    ensures { result ≡ outcome_code outcome }
{
    match outcome {
        Ok(()) => 0,
        Err(fault) => refusal_code(fault),
    }
}

// Copies as many counts as there is room for.
fn copy_counts(from: [usize; COUNTS], counts: &mut [u64])
    ensures { counts.new ≡ copied from counts.old }
{
    for i in 0..COUNTS.min(counts.len()) {
        counts[i] = from[i] as u64;
    }
}

// Lists a plan in the lent table; the counts go into the lent counts. The code of the outcome.
pub fn lucarnecress_list(plan: &[u8], table: &mut [u64], counts: &mut [u64]) -> u64
    ensures { ListHanded plan.now table.old table.new counts.old counts.new result }
{
    let listing = list_positions(plan, table);
    let found = listing.counts;
    let outcome = listing.outcome;
    copy_counts(found, counts);
    outcome_code(outcome)
}

// Judges one position: 1 settled, 0 not settled, else the code of the refusal.
pub fn lucarnecress_judge(plan: &[u8], position: u64) -> u64
    ensures { JudgeHanded plan.now position result }
{
    answer_code(judge::judge(plan, position))
}

// Writes a plan's sheet: its length in bytes, or 0 where the buffer is too short.
pub fn lucarnecress_sheet(plan: &[u8], sheet: &mut [u8]) -> u64
    ensures { SheetHanded plan.now sheet.old sheet.new result }
{
    let mut table = [0u64; TABLE_WORDS];
    written_bytes(write_plan_sheet(plan, &mut table, sheet)) as u64
}

// How many listed positions fit each question, three words to a question: up, dropped, count. 0, or the code of the refusal.
pub fn lucarnecress_count(list: &[u64], questions: &mut [u64]) -> u64
    ensures { CountHanded list.now questions.old questions.new result }
{
    counted_code(count_words(list, questions))
}

// The atoms up in all listed positions, and those up in some, as far as there is room. 0.
pub fn lucarnecress_common(list: &[u64], atoms: &mut [u64]) -> u64
    ensures { CommonHanded list.now atoms.old atoms.new result }
{
    let found = common_atoms(list);
    write_pair(found.all, found.some, atoms);
    0
}
