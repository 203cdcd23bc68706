// The command at a place: its byte tells its kind, and the bytes that follow it are handed to the reader of its operands.
ghost use Rattle.std.specs.Prelude.{◌≡◌, drop};
ghost use Rattle.plan.specs.Record.{Fitting};
ghost use Rattle.reading.specs.Commands.{command_at};

use crate::command::Command;
use crate::count::read_count;
use crate::edge::read_edge;
use crate::end::read_end;
use crate::given::read_given;
use crate::kinds::{COUNT, EDGE, END, GIVEN, RULE, SHOW, TABLE, UNIT, USE};
use crate::rule::read_rule;
use crate::show::read_show;
use crate::table::read_table;
use crate::unit::read_unit;
use crate::usage::read_use;
use plan::{Fault, Plan};

// The command at byte `at`, once the commands before it are read.
pub fn read_command(plan: &[u8], at: usize, read: Plan) -> Command
    requires { Fitting read }
    ensures { result ≡ command_at read at (drop at plan.now) }
{
    if plan.len() <= at {
        return Command::Fault(Fault::Truncated(at));
    }
    let code = plan[at];
    let operands = &plan[at + 1..];
    match code {
        COUNT => read_count(operands, at, read),
        GIVEN => read_given(operands, at, read),
        TABLE => read_table(operands, at, read),
        RULE => read_rule(operands, at, read),
        USE => read_use(operands, at, read),
        UNIT => read_unit(operands, at, read),
        EDGE => read_edge(operands, at, read),
        SHOW => read_show(operands, at, read),
        END => read_end(operands, at, read),
        _ => Command::Fault(Fault::UnknownCommand(at)),
    }
}
