// The record of a read plan.
ghost use Rattle.std.specs.Prelude.{◌≡◌, ◌<◌, ◌+◌, ◌^◌};
ghost use Rattle.plan.specs.Record.{empty_plan, with_count, with_given, with_table, with_rule, with_use, with_unit, with_edge, with_show};
ghost use Rattle.plan.specs.Limits.{MAX_RULES as Limits-as-MAX_RULES, MAX_TABLES as Limits-as-MAX_TABLES, MAX_UNITS as Limits-as-MAX_UNITS};

use crate::limits::{
    CONTACT_WORDS, FIRST_RULE, MAX_RULES, MAX_TABLES, MAX_UNITS, RULE_WORDS, USES,
};

const PROGRAM_WORDS: usize = FIRST_RULE + RULE_WORDS * MAX_RULES;

// The sizes that a plan declares: how many COUNTs were read, none or one, and the numbers of rules, units and edges that it names.
#[derive(Clone, Copy)]
pub struct Declared {
    pub count: usize,
    pub rules: usize,
    pub units: usize,
    pub edges: usize,
}

// A word that may stand once: how many were read, none or one, and the word, or what holds without it.
#[derive(Clone, Copy)]
pub struct OnceWord {
    pub count: usize,
    pub word: u64,
}

// Stays: the command table counts what was read of each kind (`once_line` in reading/specs/Commands.antt), so a count stands beside the numbers and the words.
// What may stand once in a plan: the sizes that its COUNT declares, the atoms of its GIVEN, and those of its SHOW.
#[derive(Clone, Copy)]
pub struct Once {
    pub declared: Declared,
    pub given: OnceWord,
    pub shown: OnceWord,
}

// A read plan: what may stand once, its contact tables (two words each: inputs, truth) and behind their room
// its rules (four words each: head, positive, negative, uses), its units and edges, zeros behind. Bit t of a rule's uses says that table t must be true, bit
// MAX_TABLES + t that it must be false; bit v of predecessors[u] is the edge (u, v). The counts say how many commands of each kind
// were read.
#[derive(Clone, Copy)]
pub struct Plan {
    pub once: Once,
    pub rules: [u64; PROGRAM_WORDS],
    pub table_count: usize,
    pub rule_count: usize,
    pub use_count: usize,
    pub units: [u64; MAX_UNITS],
    pub unit_count: usize,
    pub predecessors: [u64; MAX_UNITS],
    pub edge_count: usize,
}

// The record of no commands.
pub fn empty_plan() -> Plan
    ensures { result ≡ empty_plan }
{
    Plan {
        once: Once {
            declared: Declared {
                count: 0,
                rules: 0,
                units: 0,
                edges: 0,
            },
            given: OnceWord { count: 0, word: 0 },
            shown: OnceWord {
                count: 0,
                word: atoms::EVERY_ATOM,
            },
        },
        rules: [0; PROGRAM_WORDS],
        table_count: 0,
        rule_count: 0,
        use_count: 0,
        units: [0; MAX_UNITS],
        unit_count: 0,
        predecessors: [0; MAX_UNITS],
        edge_count: 0,
    }
}

// The record with the COUNT.
pub fn with_count(read: Plan, rules: u8, units: u8, edges: u8) -> Plan
    ensures { result ≡ with_count read rules units edges }
{
    let declared = Declared {
        count: 1,
        rules: rules as usize,
        units: units as usize,
        edges: edges as usize,
    };
    let mut once = read.once;
    once.declared = declared;
    let mut next = read;
    next.once = once;
    next
}

// The record with the GIVEN.
pub fn with_given(read: Plan, word: u64) -> Plan
    ensures { result ≡ with_given read word }
{
    let mut next = read;
    next.once.given.count = 1;
    next.once.given.word = word;
    next
}

// The record with one TABLE more.
pub fn with_table(read: Plan, inputs: u64, truth: u64) -> Plan
    requires { read.table_count < Limits-as-MAX_TABLES }
    ensures { result ≡ with_table read inputs truth }
{
    let count = read.table_count;
    let first = CONTACT_WORDS * count;
    let mut next = read;
    next.rules[first] = inputs;
    next.rules[first + 1] = truth;
    next.table_count = count + 1;
    next
}

// The record with one RULE more.
pub fn with_rule(read: Plan, head: u64, positive: u64, negative: u64) -> Plan
    requires { read.rule_count < Limits-as-MAX_RULES }
    ensures { result ≡ with_rule read head positive negative }
{
    let count = read.rule_count;
    let first = FIRST_RULE + RULE_WORDS * count;
    let mut next = read;
    next.rules[first] = head;
    next.rules[first + 1] = positive;
    next.rules[first + 2] = negative;
    next.rule_count = count + 1;
    next
}

// The record with one USE more: the rule wants the table true (sign 0) or false (sign 1).
pub fn with_use(read: Plan, rule: u8, table: u8, sign: u8) -> Plan
    requires { (rule < Limits-as-MAX_RULES) × (table < Limits-as-MAX_TABLES) × (sign < 2) × (read.use_count + 1 < 2 ^ 64) }
    ensures { result ≡ with_use read rule table sign }
{
    let count = read.use_count;
    let at = FIRST_RULE + RULE_WORDS * rule as usize + USES;
    let wanted = atoms::single(MAX_TABLES * sign as usize + table as usize);
    let mut next = read;
    next.rules[at] = atoms::union(next.rules[at], wanted);
    next.use_count = count + 1;
    next
}

// The record with one UNIT more.
pub fn with_unit(read: Plan, word: u64) -> Plan
    requires { read.unit_count < Limits-as-MAX_UNITS }
    ensures { result ≡ with_unit read word }
{
    let count = read.unit_count;
    let mut next = read;
    next.units[count] = word;
    next.unit_count = count + 1;
    next
}

// The record with one EDGE more.
pub fn with_edge(read: Plan, u: u8, v: u8) -> Plan
    requires { (u < Limits-as-MAX_UNITS) × (v < Limits-as-MAX_UNITS) × (read.edge_count + 1 < 2 ^ 64) }
    ensures { result ≡ with_edge read u v }
{
    let count = read.edge_count;
    let from = u as usize;
    let to = v as usize;
    let mut next = read;
    next.predecessors[from] = atoms::union(next.predecessors[from], atoms::single(to));
    next.edge_count = count + 1;
    next
}

// The record with the SHOW.
pub fn with_show(read: Plan, word: u64) -> Plan
    ensures { result ≡ with_show read word }
{
    let mut next = read;
    next.once.shown.count = 1;
    next.once.shown.word = word;
    next
}
