// Questions to a whole program: is there an answer set that completes a state? The program is a unit with no lists before it; pilots follow the answers
// of its tables, as far as there are atoms that stand in no rule, and no answer that is handed out has them.
ghost use Rattle.std.specs.Prelude.{◌≡◌, length};
ghost use Rattle.atoms.specs.Word.{◌∖◌};
ghost use Rattle.answer_sets.specs.Lent.{Lent};
ghost use Rattle.learning.specs.Store.{Empty};
ghost use Rattle.propagating.specs.Desk.{DESK_WORDS};
ghost use Rattle.searching.specs.Witness.{Witnessed};
ghost use Rattle.finding.specs.Whole.{whole_of, unit_of, hidden_of, Unpiloted, Serves, Standing, Rooted};

use joining::filter::full_filter;
use narrowing::loops::looped_atoms;
use plan::MAX_UNITS;
use propagating::Job;
use propagating::agenda::{every_step, with_tables};
use propagating::context::Context;
use propagating::desk::{DESK_WORDS, LINKED, PILOTS, lay_out};
use propagating::front::Front;
use searching::begin::begin;
use searching::find::find;
use searching::spare::{all_of, take_pilots, with_inputs};
use states::State;

// The unit of a program: its rules, its facts for input, and no predecessors.
pub fn whole(which: u64, facts: u64) -> Job
    ensures { result ≡ whole_of which facts }
{
    Job {
        rules: which,
        inputs: facts,
        predecessors: 0,
        nearest: 0,
    }
}

// The desk of a program.
pub fn desk_of(rules: &[u64], which: u64, facts: u64) -> [u64; DESK_WORDS]
    requires { Lent rules.now which }
    ensures serves { Serves rules.now result (unit_of result which facts) facts }
    ensures long { length result ≡ DESK_WORDS }
{
    let heads = [0u64; MAX_UNITS];
    let unit = whole(which, facts);
    let off = State {
        up: facts,
        dropped: atoms::outside(facts),
    };
    let pilots = take_pilots(rules, &heads, unit, off);
    let piloted = with_inputs(unit, all_of(&pilots));
    lay_out(rules, &heads, &pilots, piloted, looped_atoms(rules, which))
}

// The unit of a program with the desk's pilots.
pub fn unit_of(desk: &[u64], which: u64, facts: u64) -> Job
    requires { length desk.now ≡ DESK_WORDS }
    ensures { result ≡ unit_of desk.now which facts }
{
    with_inputs(whole(which, facts), all_of(&desk[PILOTS..LINKED]))
}

// Where every question begins: what is known of all answer sets.
pub fn root_of(rules: &[u64], desk: &[u64], memory: &mut [u64], unit: Job, facts: u64) -> Front
    requires { Serves rules.now desk.now unit facts × Empty memory.old }
    ensures stands { Standing rules.now desk.now memory.new unit facts result.state }
    ensures rooted { Rooted rules.now desk.now unit facts result.state }
{
    let table = [0u64; 0];
    let counts = [0usize; MAX_UNITS];
    let mut filter = full_filter(&counts);
    let start = State {
        up: facts,
        dropped: 0,
    };
    let every = every_step(unit, looped_atoms(rules, unit.rules));
    let front = Front {
        state: start,
        agenda: with_tables(&desk[PILOTS..LINKED], every),
        top: 0,
    };
    let cx = Context {
        rules,
        table: &table,
        counts: &counts,
        desk,
        unit,
    };
    begin(&cx, memory, &mut filter, front)
}

// An answer set that fits the state of the front, without the hidden atoms; none if none fits.
pub fn ask(
    rules: &[u64],
    desk: &[u64],
    memory: &mut [u64],
    unit: Job,
    facts: u64,
    f: Front,
) -> Option<u64>
    requires { Standing rules.now desk.now memory.old unit facts f.state }
    ensures witnessed { Witnessed (Unpiloted rules.now desk.now unit facts f.state) result }
    ensures stands { Standing rules.now desk.now memory.new unit facts f.state }
{
    let s = f.state;
    if !atoms::are_apart(s.up, s.dropped) {
        return None;
    }
    let table = [0u64; 0];
    let counts = [0usize; MAX_UNITS];
    let hidden = atoms::without(unit.inputs, facts);
    let cx = Context {
        rules,
        table: &table,
        counts: &counts,
        desk,
        unit,
    };
    let found = find(&cx, memory, f, s)?;
    Some(atoms::without(found, hidden))
}
