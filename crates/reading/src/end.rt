// END: the declared sizes are those that were read, and nothing may stand behind it.
ghost use Rattle.std.specs.Prelude.{◌≡◌, ◌+◌, ◌^◌, ◌<◌, length};
ghost use Rattle.reading.specs.Commands.{of_kind, end, miscounted};

use crate::command::Command;
use plan::{Fault, Plan};

// A wrong COUNT is spotted at the plan's start.
const COUNT_SPOT: usize = 0;

// Whether a size is declared that differs from what was read.
fn is_miscounted(read: Plan) -> bool
    ensures { result ≡ miscounted read }
{
    if read.once.declared.count == 0 {
        return false;
    }
    if read.once.declared.rules != read.rule_count {
        return true;
    }
    if read.once.declared.units != read.unit_count {
        return true;
    }
    read.once.declared.edges != read.edge_count
}

// The END at `at`, or the fault that a declared size is wrong or that bytes stand behind it.
pub fn read_end(operands: &[u8], at: usize, read: Plan) -> Command
    requires { at + 1 + length operands.now < 2 ^ 64 }
    ensures { result ≡ of_kind read at end operands.now }
{
    if is_miscounted(read) {
        return Command::Fault(Fault::WrongCount(COUNT_SPOT));
    }
    if 0 < operands.len() {
        return Command::Fault(Fault::TrailingBytes(at + 1));
    }
    Command::End
}
