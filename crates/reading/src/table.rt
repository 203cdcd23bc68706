// TABLE: its operands, and the rows of the fault table that it is held against.
ghost use Rattle.std.specs.Prelude.{◌≡◌};
ghost use Rattle.reading.specs.Commands.{of_kind, table, bad_table};

use crate::command::Command;
use crate::kinds::{TABLE_GROUP, TABLE_OPERANDS};
use crate::order::is_late;
use crate::words::{WORD_BYTES, read_word};
use plan::{Fault, MAX_INPUTS, MAX_TABLES, Plan};

// Whether a table of these words has too many inputs, or a truth bit behind its last row: there are two to the power of the input count.
fn is_bad_table(inputs: u64, truth: u64) -> bool
    ensures { result ≡ bad_table inputs truth }
{
    let count = atoms::count(inputs);
    if MAX_INPUTS < count {
        return true;
    }
    let rows: usize = 1 << count;
    atoms::first(rows) < truth
}

// The TABLE with these operands, or the fault that stops it.
pub fn read_table(operands: &[u8], at: usize, read: Plan) -> Command
    ensures { result ≡ of_kind read at table operands.now }
{
    let table_count = read.table_count;
    if is_late(TABLE_GROUP, read) {
        return Command::Fault(Fault::OutOfOrder(at));
    }
    if MAX_TABLES <= table_count {
        return Command::Fault(Fault::TooMany(at));
    }
    if operands.len() < TABLE_OPERANDS {
        return Command::Fault(Fault::Truncated(at));
    }
    let inputs = read_word(operands, 0);
    let truth = read_word(operands, WORD_BYTES);
    if is_bad_table(inputs, truth) {
        return Command::Fault(Fault::BadTable(at));
    }
    Command::Table { inputs, truth }
}
