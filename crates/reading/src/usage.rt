// USE: its operands, and the rows of the fault table that it is held against.
ghost use Rattle.std.specs.Prelude.{◌≡◌};
ghost use Rattle.reading.specs.Commands.{of_kind, usage, bad_use};
ghost use Rattle.plan.specs.Record.{Fitting};

use crate::command::Command;
use crate::kinds::{USE_GROUP, USE_OPERANDS};
use crate::order::is_late;
use plan::{FIRST_RULE, Fault, MAX_TABLES, MAX_USES, Plan, RULE_WORDS, USES};

// The last sign there is: 0 for must be true or 1 for must be false.
const MUST_BE_FALSE: u8 = 1;

// Whether a use names no rule or no table, has another sign, or is there already.
fn is_bad_use(rule: u8, table: u8, sign: u8, read: Plan) -> bool
    requires { Fitting read }
    ensures { result ≡ bad_use read rule table sign }
{
    let user = rule as usize;
    let used = table as usize;
    if read.rule_count <= user {
        return true;
    }
    if read.table_count <= used {
        return true;
    }
    if MUST_BE_FALSE < sign {
        return true;
    }
    let wanted = atoms::single(MAX_TABLES * sign as usize + used);
    let rules = read.rules;
    atoms::is_subset(wanted, rules[FIRST_RULE + RULE_WORDS * user + USES])
}

// The USE with these operands, or the fault that stops it.
pub fn read_use(operands: &[u8], at: usize, read: Plan) -> Command
    requires { Fitting read }
    ensures { result ≡ of_kind read at usage operands.now }
{
    let use_count = read.use_count;
    if is_late(USE_GROUP, read) {
        return Command::Fault(Fault::OutOfOrder(at));
    }
    if MAX_USES <= use_count {
        return Command::Fault(Fault::TooMany(at));
    }
    if operands.len() < USE_OPERANDS {
        return Command::Fault(Fault::Truncated(at));
    }
    let rule = operands[0];
    let table = operands[1];
    let sign = operands[2];
    if is_bad_use(rule, table, sign, read) {
        return Command::Fault(Fault::BadUse(at));
    }
    Command::Use { rule, table, sign }
}
