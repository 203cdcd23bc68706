// SHOW: its operand, and the rows of the fault table that it is held against.
ghost use Rattle.std.specs.Prelude.{◌≡◌};
ghost use Rattle.reading.specs.Commands.{of_kind, single, show};

use crate::command::Command;
use crate::kinds::{SHOW_GROUP, SHOW_OPERANDS};
use crate::order::is_late;
use crate::words::{WORD_BYTES, read_word};
use plan::{Fault, Plan};

// The SHOW with these operands, or the fault that stops it.
pub fn read_show(operands: &[u8], at: usize, read: Plan) -> Command
    ensures { result ≡ of_kind read at (single show) operands.now }
{
    if is_late(SHOW_GROUP, read) {
        return Command::Fault(Fault::OutOfOrder(at));
    }
    if operands.len() < SHOW_OPERANDS {
        return Command::Fault(Fault::Truncated(at));
    }
    let word = read_word(operands, 0);
    Command::Show(word)
}
