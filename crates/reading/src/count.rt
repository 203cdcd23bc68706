// COUNT: its operands, and the rows of the fault table that it is held against.
ghost use Rattle.std.specs.Prelude.{◌≡◌};
ghost use Rattle.reading.specs.Commands.{of_kind, single, sizes};

use crate::command::Command;
use crate::kinds::{COUNT_GROUP, COUNT_OPERANDS};
use crate::order::is_late;
use plan::{Fault, Plan};

// The COUNT with these operands, or the fault that stops it.
pub fn read_count(operands: &[u8], at: usize, read: Plan) -> Command
    ensures { result ≡ of_kind read at (single sizes) operands.now }
{
    if is_late(COUNT_GROUP, read) {
        return Command::Fault(Fault::OutOfOrder(at));
    }
    if operands.len() < COUNT_OPERANDS {
        return Command::Fault(Fault::Truncated(at));
    }
    let rules = operands[0];
    let units = operands[1];
    let edges = operands[2];
    Command::Count {
        rules,
        units,
        edges,
    }
}
