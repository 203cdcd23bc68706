// A plan's sheet in a lent buffer.
#![tactic(auto)]

ghost use Rattle.std.specs.Prelude.{◌≡◌};
ghost use Rattle.plan_sheet.specs.PlanSheets.{SHEET_BYTES, Printed, written_bytes, SheetKept};

use plan::{LAST_COUNT, LAST_LIST, LIST_WORDS, TABLE_WORDS, fault_number, fault_spot};
use sheet::{LINE, POSITIONS_FRAME, TooShort, write_positions, write_refusal};
use unit_lists::list_positions;

// Decimal digits of the greatest count of a list.
const COUNT_DIGITS: usize = 3;

// The length of the longest sheet: its first line, and a line for each member of a full list. The contract says that none is longer.
pub const SHEET_BYTES: usize = POSITIONS_FRAME + COUNT_DIGITS + LINE * LIST_WORDS;

// Lists the plan in the lent table, writes its sheet into the lent buffer, and returns how many bytes it has.
pub fn write_plan_sheet(plan: &[u8], table: &mut [u64], sheet: &mut [u8]) -> Result<usize, TooShort>
    ensures { Printed plan.now table.old table.new sheet.old sheet.new result }
{
    let listing = list_positions(plan, table);
    let outcome = listing.outcome;
    if let Err(fault) = outcome {
        return write_refusal(fault_number(fault), fault_spot(fault) as u64, sheet);
    }
    let counts = listing.counts;
    write_positions(&table[LAST_LIST..], counts[LAST_COUNT], sheet)
}

// How many bytes of its input a program keeps. No plan is longer, so what follows them changes nothing.
pub const KEPT_BYTES: usize = 4096;

// A sheet by value: its first `length` bytes, and zeros behind them.
// Stays: no heap, and what SheetKept says of a sheet that is handed over by value names its bytes and its length.
#[derive(Clone, Copy)]
pub struct Sheet {
    pub bytes: [u8; SHEET_BYTES],
    pub length: usize,
}

// How many bytes were written, none where the buffer is too short.
pub fn written_bytes(written: Result<usize, TooShort>) -> usize
    ensures { result ≡ written_bytes written }
{
    written.unwrap_or(0)
}

// The sheet of an input whose first bytes, as many as were read, are those of the area: all of it, or its first KEPT_BYTES.
pub fn kept_sheet(area: [u8; KEPT_BYTES], read: usize) -> Sheet
    ensures { SheetKept area read result }
{
    let count = read.min(KEPT_BYTES);
    let mut table = [0u64; TABLE_WORDS];
    let mut bytes = [0u8; SHEET_BYTES];
    let length = written_bytes(write_plan_sheet(&area[0..count], &mut table, &mut bytes));
    Sheet { bytes, length }
}
