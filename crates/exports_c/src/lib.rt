// The static library for other languages: the functions of exports, under the same names and with the same promises, by the C calling convention.
#![tactic(auto)]

ghost use Rattle.exports.specs.Audits.{MissingHanded};
ghost use Rattle.exports.specs.Batches.{BatchHanded};
ghost use Rattle.exports.specs.Blame.{BlameHanded};
ghost use Rattle.exports.specs.ExportedRows.{RowsHanded, PositionsHanded};
ghost use Rattle.exports.specs.ExportedSheets.{SheetJudgeHanded};
ghost use Rattle.exports.specs.HandedOut.{ListHanded, JudgeHanded, SheetHanded, CountHanded, CommonHanded};
ghost use Rattle.exports.specs.Readings.{NumberHanded, ReadingHanded, SumHanded, CompareHanded, LargestHanded};
ghost use Rattle.exports.specs.Steps.{NextHanded};
ghost use Rattle.std.specs.Prelude.{None, Some};

// Lists a plan in the lent table; the counts go into the lent counts. The code of the outcome.
#[unsafe(no_mangle)]
pub extern "C" fn lucarnecress_list(plan: &[u8], table: &mut [u64], counts: &mut [u64]) -> u64
    ensures { ListHanded plan.now table.old table.new counts.old counts.new result }
{
    exports::lucarnecress_list(plan, table, counts)
}

// Judges one position: 1 settled, 0 not settled, else the code of the refusal.
#[unsafe(no_mangle)]
pub extern "C" fn lucarnecress_judge(plan: &[u8], position: u64) -> u64
    ensures { JudgeHanded plan.now position result }
{
    exports::lucarnecress_judge(plan, position)
}

// Writes a plan's sheet: its length in bytes, or 0 where the buffer is too short.
#[unsafe(no_mangle)]
pub extern "C" fn lucarnecress_sheet(plan: &[u8], sheet: &mut [u8]) -> u64
    ensures { SheetHanded plan.now sheet.old sheet.new result }
{
    exports::lucarnecress_sheet(plan, sheet)
}

// How many listed positions fit each question, three words to a question: up, dropped, count. 0, or the code of the refusal.
#[unsafe(no_mangle)]
pub extern "C" fn lucarnecress_count(list: &[u64], questions: &mut [u64]) -> u64
    ensures { CountHanded list.now questions.old questions.new result }
{
    exports::lucarnecress_count(list, questions)
}

// The atoms up in all listed positions, and those up in some, as far as there is room. 0.
#[unsafe(no_mangle)]
pub extern "C" fn lucarnecress_common(list: &[u64], atoms: &mut [u64]) -> u64
    ensures { CommonHanded list.now atoms.old atoms.new result }
{
    exports::lucarnecress_common(list, atoms)
}

// The least position of a plan: 1 with the position in the first lent word, 0 if there is none, else the code of the refusal.
#[unsafe(no_mangle)]
pub extern "C" fn lucarnecress_first(plan: &[u8], found: &mut [u64]) -> u64
    ensures { NextHanded plan.now None found.old found.new result }
{
    exports::lucarnecress_first(plan, found)
}

// The least position of a plan above the given one: 1 with the position in the first lent word, 0 if none is left, else the code of the refusal.
#[unsafe(no_mangle)]
pub extern "C" fn lucarnecress_next(plan: &[u8], position: u64, found: &mut [u64]) -> u64
    ensures { NextHanded plan.now (Some position) found.old found.new result }
{
    exports::lucarnecress_next(plan, position, found)
}

// The least positions of a plan, rising, in the lent words: 0 with their number in the first word of the count, else the code of the refusal.
#[unsafe(no_mangle)]
pub extern "C" fn lucarnecress_first_positions(
    plan: &[u8],
    found: &mut [u64],
    count: &mut [u64],
) -> u64
    ensures { BatchHanded plan.now None found.old found.new count.old count.new result }
{
    exports::lucarnecress_first_positions(plan, found, count)
}

// The least positions of a plan above the given one, in the same way.
#[unsafe(no_mangle)]
pub extern "C" fn lucarnecress_next_positions(
    plan: &[u8],
    position: u64,
    found: &mut [u64],
    count: &mut [u64],
) -> u64
    ensures { BatchHanded plan.now (Some position) found.old found.new count.old count.new result }
{
    exports::lucarnecress_next_positions(plan, position, found, count)
}

// What a plan is blamed on: 1 with its least position in the first lent word, 0 with the word of held constraints there if it has no position, else
// the code of the refusal.
#[unsafe(no_mangle)]
pub extern "C" fn lucarnecress_blame(plan: &[u8], found: &mut [u64]) -> u64
    ensures { BlameHanded plan.now found.old found.new result }
{
    exports::lucarnecress_blame(plan, found)
}

// What a sheet lacks: 0 if every position of the plan is on it, 1 with the least one that is not in the first lent word, else the code of the refusal.
#[unsafe(no_mangle)]
pub extern "C" fn lucarnecress_missing(plan: &[u8], positions: &[u8], found: &mut [u64]) -> u64
    ensures { MissingHanded plan.now positions.now found.old found.new result }
{
    exports::lucarnecress_missing(plan, positions, found)
}

// Judges the positions in turn: 256 if all are settled, the place from 0 of the first that is not, else the code of the refusal.
#[unsafe(no_mangle)]
pub extern "C" fn lucarnecress_judge_sheet(plan: &[u8], positions: &[u8]) -> u64
    ensures { SheetJudgeHanded plan.now positions.now result }
{
    exports::lucarnecress_judge_sheet(plan, positions)
}

// The rows of the first `count` positions of a list: bit j of row i tells whether position j has atom i up. 0, or the code of the refusal.
#[unsafe(no_mangle)]
pub extern "C" fn lucarnecress_rows(list: &[u64], count: u64, rows: &mut [u64]) -> u64
    ensures { RowsHanded list.now count rows.old rows.new result }
{
    exports::lucarnecress_rows(list, count, rows)
}

// The list of the first `count` positions of rows, zeros behind. 0, or the code of the refusal.
#[unsafe(no_mangle)]
pub extern "C" fn lucarnecress_positions_of_rows(rows: &[u64], count: u64, list: &mut [u64]) -> u64
    ensures { PositionsHanded rows.now count list.old list.new result }
{
    exports::lucarnecress_positions_of_rows(rows, count, list)
}

// The whole number that a reading says: 65,535 where nothing was measured, else the code of the refusal.
#[unsafe(no_mangle)]
pub extern "C" fn lucarnecress_reading_number(reading: u16) -> u64
    ensures { NumberHanded reading result }
{
    exports::lucarnecress_reading_number(reading)
}

// The reading that says a whole number, and 65,535 for 65,535; else the code of the refusal.
#[unsafe(no_mangle)]
pub extern "C" fn lucarnecress_reading_of(number: u64) -> u64
    ensures { ReadingHanded number result }
{
    exports::lucarnecress_reading_of(number)
}

// The sum of two readings modulo 10,000: 65,536 times the carry plus the reading, else the code of the refusal.
#[unsafe(no_mangle)]
pub extern "C" fn lucarnecress_reading_sum(a: u16, b: u16) -> u64
    ensures { SumHanded a b result }
{
    exports::lucarnecress_reading_sum(a, b)
}

// A reading against a limit: 0 below, 1 equal, 2 above, 65,535 not measured, else the code of the refusal.
#[unsafe(no_mangle)]
pub extern "C" fn lucarnecress_reading_compare(reading: u16, limit: u16) -> u64
    ensures { CompareHanded reading limit result }
{
    exports::lucarnecress_reading_compare(reading, limit)
}

// The largest measured reading of a run of bytes: 1 with its word and place in the lent words, 0 where none was measured, else the code of
// the refusal.
#[unsafe(no_mangle)]
pub extern "C" fn lucarnecress_reading_largest(bytes: &[u8], found: &mut [u64]) -> u64
    ensures { LargestHanded bytes.now found.old found.new result }
{
    exports::lucarnecress_reading_largest(bytes, found)
}
