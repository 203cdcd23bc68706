// Questions on single positions and their subsets that no plan asks, or that a wrong program gets wrong, one line each. Those of document 01's
// circuits are asked of their plans, by check_plans.
#![tactic(auto)]

use plan::{FIRST_RULE, RULE_WORDS, USES};

// The descriptor of standard output.
const STDOUT_FILENO: i32 = 1;

// Every rule number; those with no rule behind them are ignored.
const EVERY: u64 = 0xffff_ffff_ffff_ffff;

// Where the words of the first rules start: head, positive body, negative body, uses.
const RULE_0: usize = FIRST_RULE;

const RULE_1: usize = RULE_0 + RULE_WORDS;

const RULE_2: usize = RULE_1 + RULE_WORDS;

// The atoms of the chain and the words of its rules.
const CHAIN_ATOMS: usize = 60;

const CHAIN_WORDS: usize = FIRST_RULE + RULE_WORDS * CHAIN_ATOMS;

// Writes whether the position is an answer set of the rules that the words are.
fn ask(name: &[u8], rules: &[u64], position: u64) {
    io::write_all(STDOUT_FILENO, name);
    io::write_all(STDOUT_FILENO, b" position ");
    io::print_decimal(STDOUT_FILENO, position);
    if answer_sets::judge_position(rules, rules.len(), EVERY, 0, position) {
        io::write_all(STDOUT_FILENO, b" yes\n");
    } else {
        io::write_all(STDOUT_FILENO, b" no\n");
    }
}

// Writes whether some proper subset of the position has the facts and satisfies the kept ones of the first n rules.
fn ask_smaller(name: &[u8], rules: &[u64], n: usize, kept: u64, facts: u64, position: u64) {
    io::write_all(STDOUT_FILENO, name);
    if answer_sets::has_smaller(rules, n, kept, facts, position) {
        io::write_all(STDOUT_FILENO, b": smaller\n");
    } else {
        io::write_all(STDOUT_FILENO, b": none smaller\n");
    }
}

// Two relays that hold each other up: 0 if 1; 1 if 0.
fn pair() {
    let mut rules = [0u64; RULE_2];
    rules[RULE_0] = 0x1;
    rules[RULE_0 + 1] = 0x2;
    rules[RULE_1] = 0x2;
    rules[RULE_1 + 1] = 0x1;
    ask(b"pair", &rules, 3);
    ask(b"pair", &rules, 0);
}

// The highest atom as a fact.
fn top_atom() {
    let mut rules = [0u64; RULE_1];
    rules[RULE_0] = 0x8000_0000_0000_0000;
    ask(b"top atom", &rules, 0x8000_0000_0000_0000);
    ask(b"top atom", &rules, 0);
}

// Sixty rules: atom 0 if the atoms of `first`, a fact where there are none; each further atom if the one below it.
fn chain(first: u64) -> [u64; CHAIN_WORDS] {
    let mut rules = [0u64; CHAIN_WORDS];
    rules[FIRST_RULE] = 0x1;
    rules[FIRST_RULE + 1] = first;
    for atom in 1..CHAIN_ATOMS {
        rules[FIRST_RULE + RULE_WORDS * atom] = atoms::single(atom);
        rules[FIRST_RULE + RULE_WORDS * atom + 1] = atoms::single(atom - 1);
    }
    rules
}

// From fact 0 all sixty atoms go up, and no others.
fn sixty_atoms_from_a_fact() {
    let rules = chain(0);
    ask(b"chain of 60", &rules, 0x0fff_ffff_ffff_ffff);
    ask(b"chain of 60", &rules, 0x07ff_ffff_ffff_ffff);
    ask(b"chain of 60", &rules, 0x1fff_ffff_ffff_ffff);
}

// Closed to a ring without a fact, sixty atoms hold each other up.
fn sixty_atoms_in_a_ring() {
    let rules = chain(0x0800_0000_0000_0000);
    ask(b"ring of 60", &rules, 0x0fff_ffff_ffff_ffff);
    ask(b"ring of 60", &rules, 0);
}

// Atom 0 by a table over itself: one that is true where 0 is up gives no reason for 0, one that is always true does. Judged with the
// body erased, or with the use at the position alone, both would.
fn own_table() {
    let mut rules = [0u64; RULE_1];
    rules[RULE_0] = 0x1;
    rules[0] = 0x1;
    rules[1] = 0x2;
    rules[RULE_0 + USES] = 0x1;
    ask(b"0 if its table says that 0 is up", &rules, 0);
    ask(b"0 if its table says that 0 is up", &rules, 1);
    rules[1] = 0x3;
    ask(b"0 if its table says yes", &rules, 0);
    ask(b"0 if its table says yes", &rules, 1);
}

// Fact 0 or 1; 2 if the table over 0 and 1 is true: of the lowest atom bit 0 of the row tells. Then with the table false.
fn rows_of_a_table() {
    let mut rules = [0u64; RULE_2];
    rules[RULE_0] = 0x3;
    rules[RULE_1] = 0x4;
    rules[0] = 0x3;
    rules[1] = 0x2;
    rules[RULE_1 + USES] = 0x1;
    ask(b"2 where 0 alone is up", &rules, 0x5);
    ask(b"2 where 0 alone is up", &rules, 0x2);
    ask(b"2 where 0 alone is up", &rules, 0x6);
    rules[RULE_1 + USES] = 0x1_0000;
    ask(b"2 where not 0 alone is up", &rules, 0x5);
    ask(b"2 where not 0 alone is up", &rules, 0x1);
    ask(b"2 where not 0 alone is up", &rules, 0x6);
}

// Fact 0; 1 if 0: numbers with no rule behind them are ignored, and so are rules from n on.
fn subsets_by_rule_number() {
    let mut rules = [0u64; RULE_2];
    rules[RULE_0] = 0x1;
    rules[RULE_1] = 0x2;
    rules[RULE_1 + 1] = 0x1;
    ask_smaller(b"both rules", &rules, 2, 0x3, 0, 0x3);
    ask_smaller(
        b"both rules, and numbers with no rule",
        &rules,
        2,
        EVERY,
        0,
        0x3,
    );
    ask_smaller(b"rules past the words", &rules, 64, EVERY, 0, 0x3);
    ask_smaller(
        b"numbers with no rule alone",
        &rules,
        2,
        0xffff_ffff_ffff_fffc,
        0,
        0x3,
    );
    ask_smaller(b"rule 0 alone", &rules, 2, 0x1, 0, 0x3);
    ask_smaller(b"the first of both rules", &rules, 1, 0x3, 0, 0x3);
    ask_smaller(b"no rule lent", &rules, 0, EVERY, 0, 0x3);
}

// Facts that are not all in the position give no, whatever the rules; facts that are all of it do too.
fn subsets_with_facts() {
    let mut rules = [0u64; RULE_1];
    rules[RULE_0] = 0x2;
    rules[RULE_0 + 1] = 0x1;
    ask_smaller(b"facts in the position", &rules, 1, 0x1, 0x4, 0x7);
    ask_smaller(b"a fact that forces the rest", &rules, 1, 0x1, 0x1, 0x3);
    ask_smaller(b"facts that are the position", &rules, 1, 0x1, 0x7, 0x7);
    ask_smaller(b"a fact outside the position", &rules, 1, 0x1, 0x8, 0x7);
    ask_smaller(b"facts inside and outside", &rules, 1, 0x1, 0xc, 0x7);
}

// The empty position has no proper subset.
fn subsets_of_the_empty_position() {
    let mut rules = [0u64; RULE_1];
    rules[RULE_0] = 0x1;
    rules[RULE_0 + 1] = 0x1;
    ask_smaller(b"empty position", &rules, 1, 0x1, 0, 0);
    ask_smaller(b"empty position, no rules", &rules, 0, 0, 0, 0);
    ask_smaller(b"empty position, a fact", &rules, 1, 0x1, 0x1, 0);
}

// All 64 atoms are up: only a chain of all of them, from a fact on, leaves no smaller subset.
fn subsets_of_all_atoms() {
    let rules = chain(0);
    ask_smaller(b"64 atoms, no rules", &rules, 0, EVERY, 0, EVERY);
    ask_smaller(b"64 atoms, all facts", &rules, 0, EVERY, EVERY, EVERY);
    ask_smaller(
        b"64 atoms, all but one facts",
        &rules,
        0,
        EVERY,
        0x7fff_ffff_ffff_ffff,
        EVERY,
    );
    ask_smaller(
        b"64 atoms, 60 of them in a chain",
        &rules,
        CHAIN_ATOMS,
        EVERY,
        0,
        EVERY,
    );
    ask_smaller(
        b"64 atoms, a chain and four facts",
        &rules,
        CHAIN_ATOMS,
        EVERY,
        0xf000_0000_0000_0000,
        EVERY,
    );
    ask_smaller(
        b"64 atoms, a chain but for one rule",
        &rules,
        CHAIN_ATOMS,
        0xffff_fffe_ffff_ffff,
        0xf000_0000_0000_0000,
        EVERY,
    );
}

// All questions in order.
fn main() {
    pair();
    top_atom();
    own_table();
    rows_of_a_table();
    sixty_atoms_from_a_fact();
    sixty_atoms_in_a_ring();
    subsets_by_rule_number();
    subsets_with_facts();
    subsets_of_the_empty_position();
    subsets_of_all_atoms();
}
