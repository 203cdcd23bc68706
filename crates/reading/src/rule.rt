// RULE: its operands, and the rows of the fault table that it is held against.
ghost use Rattle.std.specs.Prelude.{◌≡◌};
ghost use Rattle.reading.specs.Commands.{of_kind, rule, empty_rule};

use crate::command::Command;
use crate::kinds::{RULE_GROUP, RULE_OPERANDS};
use crate::order::is_late;
use crate::words::{WORD_BYTES, read_word};
use plan::{Fault, MAX_RULES, Plan};

// Whether a rule of these words says nothing.
fn is_empty_rule(head: u64, positive: u64, negative: u64) -> bool
    ensures { result ≡ empty_rule head positive negative }
{
    if head != 0 {
        return false;
    }
    if positive != 0 {
        return false;
    }
    negative == 0
}

// The RULE with these operands, or the fault that stops it.
pub fn read_rule(operands: &[u8], at: usize, read: Plan) -> Command
    ensures { result ≡ of_kind read at rule operands.now }
{
    let rule_count = read.rule_count;
    if is_late(RULE_GROUP, read) {
        return Command::Fault(Fault::OutOfOrder(at));
    }
    if MAX_RULES <= rule_count {
        return Command::Fault(Fault::TooMany(at));
    }
    if operands.len() < RULE_OPERANDS {
        return Command::Fault(Fault::Truncated(at));
    }
    let head = read_word(operands, 0);
    let positive = read_word(operands, WORD_BYTES);
    let negative = read_word(operands, WORD_BYTES + WORD_BYTES);
    if is_empty_rule(head, positive, negative) {
        return Command::Fault(Fault::EmptyRule(at));
    }
    if !atoms::are_apart(positive, negative) {
        return Command::Fault(Fault::ContradictoryBody(at));
    }
    Command::Rule {
        head,
        positive,
        negative,
    }
}
