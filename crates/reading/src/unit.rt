// UNIT: its operand, and the rows of the fault table that it is held against.
ghost use Rattle.std.specs.Prelude.{◌≡◌};
ghost use Rattle.reading.specs.Commands.{of_kind, unit, absent_rule};
ghost use Rattle.plan.specs.Record.{Fitting};

use crate::command::Command;
use crate::kinds::{UNIT_GROUP, UNIT_OPERANDS};
use crate::order::is_late;
use crate::words::{WORD_BYTES, read_word};
use plan::{Fault, MAX_UNITS, Plan};

// Whether the word names a rule that is not there: a bit from the count of rules on.
fn names_absent_rule(word: u64, read: Plan) -> bool
    requires { Fitting read }
    ensures { result ≡ absent_rule read word }
{
    atoms::first(read.rule_count) < word
}

// The UNIT with these operands, or the fault that stops it.
pub fn read_unit(operands: &[u8], at: usize, read: Plan) -> Command
    requires { Fitting read }
    ensures { result ≡ of_kind read at unit operands.now }
{
    let unit_count = read.unit_count;
    if is_late(UNIT_GROUP, read) {
        return Command::Fault(Fault::OutOfOrder(at));
    }
    if MAX_UNITS <= unit_count {
        return Command::Fault(Fault::TooMany(at));
    }
    if operands.len() < UNIT_OPERANDS {
        return Command::Fault(Fault::Truncated(at));
    }
    let word = read_word(operands, 0);
    if names_absent_rule(word, read) {
        return Command::Fault(Fault::AbsentRule(at));
    }
    Command::Unit(word)
}
