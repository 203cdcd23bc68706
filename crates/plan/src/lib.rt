// What a plan is, apart from how its bytes are read: its limits, its record, and the faults for which it is refused.
#![tactic(auto)]

mod fault;
mod limits;
mod record;

pub use fault::{CODE_STEP, Fault, code_of, fault_number, fault_spot, refusal_code};
pub use limits::{
    CONTACT_WORDS, COUNTS, FIRST_RULE, LAST_COUNT, LAST_LIST, LIST_WORDS, MAX_INPUTS, MAX_RULES,
    MAX_TABLES, MAX_UNITS, MAX_USES, OVERFULL, RULE_WORDS, TABLE_WORDS, USES,
};
pub use record::{
    Declared, Once, OnceWord, Plan, empty_plan, with_count, with_edge, with_given, with_rule,
    with_show, with_table, with_unit, with_use,
};
