// GIVEN: its operand, and the rows of the fault table that it is held against.
ghost use Rattle.std.specs.Prelude.{◌≡◌};
ghost use Rattle.reading.specs.Commands.{of_kind, single, given};

use crate::command::Command;
use crate::kinds::{GIVEN_GROUP, GIVEN_OPERANDS};
use crate::order::is_late;
use crate::words::{WORD_BYTES, read_word};
use plan::{Fault, Plan};

// The GIVEN with these operands, or the fault that stops it.
pub fn read_given(operands: &[u8], at: usize, read: Plan) -> Command
    ensures { result ≡ of_kind read at (single given) operands.now }
{
    if is_late(GIVEN_GROUP, read) {
        return Command::Fault(Fault::OutOfOrder(at));
    }
    if operands.len() < GIVEN_OPERANDS {
        return Command::Fault(Fault::Truncated(at));
    }
    let word = read_word(operands, 0);
    Command::Given(word)
}
