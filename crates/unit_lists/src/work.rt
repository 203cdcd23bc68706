// Unit work: the list of each unit in working order, and the last list.
ghost use Rattle.std.specs.Prelude.{◌≡◌, ◌+◌, ◌*◌, ◌^◌, ◌≤◌, ◌<◌, length};
ghost use Rattle.atoms.specs.Word.{ATOMS};
ghost use Rattle.atoms.specs.Cuts.{CutOf};
ghost use Rattle.plan.specs.Limits.{LIST_WORDS, TABLE_WORDS, LAST_COUNT};
ghost use Rattle.plan.specs.declared.fault.Fault.TheVariants.{LongList};
ghost use Rattle.dependency_graph.specs.Units.{Edge};
ghost use Rattle.dependency_graph.specs.PlanUnits.{units_of};
ghost use Rattle.splitting.specs.UnitList.{with_last};
ghost use Rattle.propagating.specs.Job.{Belongs, Searchable};
ghost use Rattle.states.specs.Narrowing.{Wanted};
ghost use Rattle.demands.specs.UnitLists.{unit_list_of, last_list_of};
ghost use Rattle.demands.specs.LentTable.{cleared};
ghost use Rattle.demands.specs.Answer.{unit_work};
ghost use Rattle.demands.specs.Handed.{refusal, Handed};
ghost use Rattle.unit_lists.specs.Work.{UnitTold, start_within, ListStored, MembersStored, ListsThere, Workable, Setting, Working, UnitsWorked};

use crate::table::clear;
use atoms::words::store;
use demands::listing::{Listing, refuse};
use dependency_graph::head_atoms::{HeadAtoms, head_atoms};
use dependency_graph::working_order::next_unit;
use joining::nearest::nearest;
use plan::{COUNTS, Fault, LAST_COUNT, LIST_WORDS, Plan};
use propagating::Job;
use searching::search::search;
use states::State;

// Where a search starts: the given atoms are up, and all atoms but these are dropped.
fn start_within(given: u64, within: u64) -> State
    ensures { (result ≡ start_within given within) × (within < 2 ^ ATOMS) }
{
    State {
        up: given,
        dropped: atoms::outside(within),
    }
}

// Searches one list from the start: its words and its count go to their place. Whether the list fits; if not, nothing is written.
fn list_one(
    rules: &[u64],
    heads: &[u64],
    unit: Job,
    start: State,
    shown: u64,
    place: usize,
    table: &mut [u64],
    counts: &mut [usize],
) -> bool
    requires { Searchable rules.now table.old counts.old heads.now unit
        × (LIST_WORDS * place + LIST_WORDS ≤ length table.old) × (place < length counts.old) }
    ensures { ListStored (CutOf shown
        (Wanted (Belongs rules.now table.old counts.old heads.now unit) start))
        place table.old counts.old table.new counts.new result }
{
    let mut list = [0u64; LIST_WORDS];
    let count = search(rules, table, counts, heads, unit, shown, &mut list, start);
    if LIST_WORDS < count {
        return false;
    }
    store(&list, table, LIST_WORDS * place);
    counts[place] = count;
    true
}

// Unit u as the search gets it.
fn unit_at(plan: Plan, head_atoms: HeadAtoms, u: usize) -> Job
    requires { Setting plan head_atoms × (u < plan.unit_count) }
    ensures { UnitTold (units_of plan) u result }
{
    Job {
        rules: atoms::cut(plan.units[u], atoms::first(plan.rule_count)),
        inputs: head_atoms.inputs[u],
        predecessors: plan.predecessors[u],
        nearest: nearest(&head_atoms.heads, plan.predecessors[u]),
    }
}

// Lists unit u, whose predecessors are listed. Whether its list fits.
fn list_unit(
    plan: Plan,
    head_atoms: HeadAtoms,
    u: usize,
    table: &mut [u64],
    counts: &mut [usize],
) -> bool
    requires { Setting plan head_atoms × (u < plan.unit_count) × ListsThere (units_of plan) (Edge (units_of plan) u) table.old counts.old }
    ensures { MembersStored (unit_list_of (units_of plan) u) u
        table.old counts.old table.new counts.new result }
{
    let given = plan.once.given.word;
    let heads = head_atoms.heads;
    let unit = unit_at(plan, head_atoms, u);
    let start = start_within(given, heads[u]);
    list_one(
        &plan.rules,
        &heads,
        unit,
        start,
        atoms::EVERY_ATOM,
        u,
        table,
        counts,
    )
}

// Lists the units, lowest number first among those whose predecessors are done. The error is the first unit whose list does not fit.
fn list_units(
    plan: Plan,
    head_atoms: HeadAtoms,
    table: &mut [u64],
    counts: &mut [usize],
) -> Result<(), usize>
    requires { Setting plan head_atoms × Working (units_of plan) 0 table.old table.old counts.old }
    ensures { UnitsWorked (units_of plan) table.old table.new counts.new result }
{
    let mut done = 0;
    for _ in 0..plan.unit_count {
        let Some(u) = next_unit(plan, done) else {
            return Ok(());
        };
        if !list_unit(plan, head_atoms, u, table, counts) {
            return Err(u);
        }
        done = atoms::union(done, atoms::single(u));
    }
    Ok(())
}

// The one more unit as the search gets it: no rules, and an edge to every unit.
fn last_unit(plan: Plan, head_atoms: HeadAtoms) -> Job
    requires { Setting plan head_atoms }
    ensures { UnitTold (with_last (units_of plan)) plan.unit_count result }
{
    let heads = head_atoms.heads;
    let every = atoms::first(plan.unit_count);
    Job {
        rules: 0,
        inputs: atoms::union(
            plan.once.given.word,
            atoms::union_of(&heads, plan.unit_count, every),
        ),
        predecessors: every,
        nearest: nearest(&heads, every),
    }
}

// The last list, where all units are listed: what shows of its members. Whether it fits.
fn list_last(plan: Plan, head_atoms: HeadAtoms, table: &mut [u64], counts: &mut [usize]) -> bool
    requires { Setting plan head_atoms × ListsThere (units_of plan) (λ v. v < plan.unit_count) table.old counts.old }
    ensures { MembersStored (last_list_of (units_of plan)) LAST_COUNT
        table.old counts.old table.new counts.new result }
{
    let heads = head_atoms.heads;
    let unit = last_unit(plan, head_atoms);
    let start = start_within(plan.once.given.word, unit.inputs);
    list_one(
        &plan.rules,
        &heads,
        unit,
        start,
        plan.once.shown.word,
        LAST_COUNT,
        table,
        counts,
    )
}

// Refuses by 15: the table's words 0 to 4,351 become zero.
fn refuse_long(u: usize, table: &mut [u64]) -> Listing
    requires { TABLE_WORDS ≤ length table.old }
    ensures refused { result ≡ refusal (LongList u) }
    ensures emptied { table.new ≡ cleared table.old }
{
    clear(table);
    refuse(Fault::LongList(u))
}

// Unit work on a plan that passed the graph place: all lists, or the first that is above 256.
pub fn unit_work(plan: Plan, table: &mut [u64]) -> Listing
    requires { Workable plan × (TABLE_WORDS ≤ length table.old) }
    ensures { Handed (unit_work (units_of plan) table.old) result table.new }
{
    clear(table);
    let head_atoms = head_atoms(plan);
    let mut counts = [0usize; COUNTS];
    let worked = list_units(plan, head_atoms, table, &mut counts);
    if let Err(u) = worked {
        return refuse_long(u, table);
    }
    if !list_last(plan, head_atoms, table, &mut counts) {
        return refuse_long(plan.unit_count, table);
    }
    Listing {
        outcome: Ok(()),
        counts,
    }
}
