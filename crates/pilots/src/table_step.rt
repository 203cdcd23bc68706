// The step of a contact table with its pilot: the pilot from the inputs, and the inputs from the pilot.
ghost use Rattle.std.specs.Prelude.{◌<◌};
ghost use Rattle.plan.specs.Limits.{MAX_TABLES};
ghost use Rattle.states.specs.Narrowing.{Narrows};
ghost use Rattle.pilots.specs.Pilots.{FollowsTable, FollowsWords, RowAmong};

use answer_sets::uses::{table_inputs, table_truth};
use contact_tables::{agreeing_rows, told_inputs};
use plan::FIRST_RULE;
use states::{State, clash};

// The state after the inputs of a table whose row is one of these: an input that each row that is left has is up, one that none has is dropped; with
// none left nothing completes it.
fn tell_inputs(inputs: u64, rows: u64, s: State) -> State
    ensures { Narrows (RowAmong inputs rows) s result }
{
    let left = atoms::cut(agreeing_rows(inputs, s.up, s.dropped), rows);
    if left == 0 {
        return clash(s);
    }
    let told = told_inputs(inputs, left);
    State {
        up: atoms::union(s.up, told.up),
        dropped: atoms::union(s.dropped, told.dropped),
    }
}

// The state after the pilot of a table with this truth word, where the rows that are left all say the same.
fn tell_pilot(inputs: u64, truth: u64, pilot: u64, s: State) -> State
    ensures { Narrows (FollowsWords inputs truth pilot) s result }
{
    let rows = agreeing_rows(inputs, s.up, s.dropped);
    if atoms::is_subset(rows, truth) {
        return State {
            up: atoms::union(s.up, pilot),
            ..s
        };
    }
    if atoms::are_apart(rows, truth) {
        return State {
            dropped: atoms::union(s.dropped, pilot),
            ..s
        };
    }
    s
}

// The state after table t with its pilot, where there are tables.
pub fn table_step(rules: &[u64], t: usize, pilot: u64, s: State) -> State
    requires { t < MAX_TABLES }
    ensures { Narrows (FollowsTable rules.now t pilot) s result }
{
    if rules.len() < FIRST_RULE {
        return s;
    }
    let inputs = table_inputs(rules, t);
    let truth = table_truth(rules, t);
    if !atoms::are_apart(pilot, s.up) {
        return tell_inputs(inputs, truth, s);
    }
    if !atoms::are_apart(pilot, s.dropped) {
        return tell_inputs(inputs, atoms::outside(truth), s);
    }
    tell_pilot(inputs, truth, pilot, s)
}
