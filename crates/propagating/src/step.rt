// The steps by number, as the agenda and the trail have them: the rules, the supports of the atoms, the lists, the founded step, the tables, the
// sums of parity tables, the pairs of the memory, and last the step that drops given atoms if they are unfounded.
ghost use Rattle.propagating.specs.Step.{Decoded};

use atoms::ATOMS;
use learning::store::PAIRS;
use plan::{MAX_RULES, MAX_TABLES, MAX_UNITS};

pub const SUPPORTS: usize = MAX_RULES;

pub const LISTS: usize = SUPPORTS + ATOMS;

pub const FOUNDED_STEP: usize = LISTS + MAX_UNITS;

pub const TABLE_STEPS: usize = FOUNDED_STEP + 1;

pub const SUM_STEP: usize = TABLE_STEPS + MAX_TABLES;

pub const PAIR_STEPS: usize = SUM_STEP + 1;

pub const UNFOUNDED_STEP: usize = PAIR_STEPS + PAIRS;

// A step: a rule, an atom's support, a list, the founded step, a table, the sums of parity tables, a pair of the memory, or that given atoms are unfounded.
#[derive(Clone, Copy)]
pub enum Step {
    Rule(usize),
    Support(usize),
    List(usize),
    Founded,
    Table(usize),
    Sums,
    Pair(usize),
    Unfounded,
}

// The step of this number; behind the pairs each is the unfounded step's.
pub fn decode(number: usize) -> Step
    ensures { Decoded number result }
{
    if number < SUPPORTS {
        return Step::Rule(number);
    }
    if number < LISTS {
        return Step::Support(number - SUPPORTS);
    }
    if number < FOUNDED_STEP {
        return Step::List(number - LISTS);
    }
    if number < TABLE_STEPS {
        return Step::Founded;
    }
    if number < SUM_STEP {
        return Step::Table(number - TABLE_STEPS);
    }
    if number < PAIR_STEPS {
        return Step::Sums;
    }
    if number < UNFOUNDED_STEP {
        return Step::Pair(number - PAIR_STEPS);
    }
    Step::Unfounded
}
