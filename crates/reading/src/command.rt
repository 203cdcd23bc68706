// What one command of a plan is.
use plan::Fault;

// "A command is one of four kinds carrying its operands", of nine with COUNT, GIVEN, TABLE, USE and SHOW, or the fault that stopped it.
// Stays: the user's paper names an enum with data for each read command, "or the fault that stopped it".
#[derive(Clone, Copy)]
pub enum Command {
    Count {
        rules: u8,
        units: u8,
        edges: u8,
    },
    Given(u64),
    Table {
        inputs: u64,
        truth: u64,
    },
    Rule {
        head: u64,
        positive: u64,
        negative: u64,
    },
    Use {
        rule: u8,
        table: u8,
        sign: u8,
    },
    Unit(u64),
    Edge(u8, u8),
    Show(u64),
    End,
    Fault(Fault),
}
