// Reading a plan from the left: a COUNT, a GIVEN, then TABLEs, RULEs, USEs, UNITs, EDGEs, a SHOW, then END. Any of these but END may be missing.
ghost use Rattle.std.specs.Prelude.{◌≡◌};
ghost use Rattle.plan.specs.Record.{Fitting};
ghost use Rattle.reading.specs.Commands.{single, given, show, table, rule, usage, unit, edge, end};
ghost use Rattle.reading.specs.Progress.{place_at, Reached};
ghost use Rattle.reading.specs.Reading.{reading, as_read};
ghost use Rattle.reading.specs.Layout.{Records};
ghost use Rattle.reading.specs.Refusals.{ReadingJudged};

use crate::command::Command;
use crate::dispatch::read_command;
use crate::kinds::{
    COUNT_BYTES, EDGE_BYTES, GIVEN_BYTES, RULE_BYTES, SHOW_BYTES, TABLE_BYTES, UNIT_BYTES,
    USE_BYTES,
};
use plan::{
    Fault, Plan, empty_plan, with_count, with_edge, with_given, with_rule, with_show, with_table,
    with_unit, with_use,
};

// How far reading has come: the record of what is taken, and the command at byte `at`, which is not.
#[derive(Clone, Copy)]
struct Progress {
    plan: Plan,
    at: usize,
    command: Command,
}

// The place at byte `at` behind what is taken, with its command.
fn place(bytes: &[u8], taken: Plan, at: usize) -> Progress
    requires { Fitting taken }
    ensures { result ≡ place_at bytes.now taken at }
{
    let command = read_command(bytes, at, taken);
    Progress {
        plan: taken,
        at,
        command,
    }
}

// The place behind the COUNT, if there is one.
fn read_counts(bytes: &[u8]) -> Progress
    ensures { Reached (single given) bytes.now result }
{
    let progress = place(bytes, empty_plan(), 0);
    let command = progress.command;
    let Command::Count {
        rules,
        units,
        edges,
    } = command
    else {
        return progress;
    };
    let taken = with_count(progress.plan, rules, units, edges);
    let at = progress.at;
    place(bytes, taken, at + COUNT_BYTES)
}

// The place behind the GIVEN, if there is one.
fn read_givens(bytes: &[u8], from: Progress) -> Progress
    requires { Reached (single given) bytes.now from }
    ensures { Reached table bytes.now result }
{
    let command = from.command;
    let Command::Given(word) = command else {
        return from;
    };
    let taken = with_given(from.plan, word);
    let at = from.at;
    place(bytes, taken, at + GIVEN_BYTES)
}

// The place behind all TABLEs.
// Stays: the user's paper names `let .. else` that takes a command from the read one, here and in the four loops below.
fn read_tables(bytes: &[u8], from: Progress) -> Progress
    requires { Reached table bytes.now from }
    ensures { Reached rule bytes.now result }
{
    let mut progress = from;
    loop {
        let command = progress.command;
        let Command::Table { inputs, truth } = command else {
            return progress;
        };
        let taken = with_table(progress.plan, inputs, truth);
        let at = progress.at;
        progress = place(bytes, taken, at + TABLE_BYTES);
    }
}

// The place behind all RULEs.
fn read_rules(bytes: &[u8], from: Progress) -> Progress
    requires { Reached rule bytes.now from }
    ensures { Reached usage bytes.now result }
{
    let mut progress = from;
    loop {
        let command = progress.command;
        let Command::Rule {
            head,
            positive,
            negative,
        } = command
        else {
            return progress;
        };
        let taken = with_rule(progress.plan, head, positive, negative);
        let at = progress.at;
        progress = place(bytes, taken, at + RULE_BYTES);
    }
}

// The place behind all USEs.
fn read_uses(bytes: &[u8], from: Progress) -> Progress
    requires { Reached usage bytes.now from }
    ensures { Reached unit bytes.now result }
{
    let mut progress = from;
    loop {
        let command = progress.command;
        let Command::Use { rule, table, sign } = command else {
            return progress;
        };
        let taken = with_use(progress.plan, rule, table, sign);
        let at = progress.at;
        progress = place(bytes, taken, at + USE_BYTES);
    }
}

// The place behind all UNITs.
fn read_units(bytes: &[u8], from: Progress) -> Progress
    requires { Reached unit bytes.now from }
    ensures { Reached edge bytes.now result }
{
    let mut progress = from;
    loop {
        let command = progress.command;
        let Command::Unit(word) = command else {
            return progress;
        };
        let taken = with_unit(progress.plan, word);
        let at = progress.at;
        progress = place(bytes, taken, at + UNIT_BYTES);
    }
}

// The place behind all EDGEs.
fn read_edges(bytes: &[u8], from: Progress) -> Progress
    requires { Reached edge bytes.now from }
    ensures { Reached (single show) bytes.now result }
{
    let mut progress = from;
    loop {
        let command = progress.command;
        let Command::Edge(u, v) = command else {
            return progress;
        };
        let taken = with_edge(progress.plan, u, v);
        let at = progress.at;
        progress = place(bytes, taken, at + EDGE_BYTES);
    }
}

// The place behind the SHOW, if there is one.
fn read_shows(bytes: &[u8], from: Progress) -> Progress
    requires { Reached (single show) bytes.now from }
    ensures { Reached end bytes.now result }
{
    let command = from.command;
    let Command::Show(word) = command else {
        return from;
    };
    let taken = with_show(from.plan, word);
    let at = from.at;
    place(bytes, taken, at + SHOW_BYTES)
}

// The record of the plan, or its first fault from the left.
pub fn read_plan(plan: &[u8]) -> Result<Plan, Fault>
    ensures read { as_read result ≡ reading plan.now }
    ensures judged { ReadingJudged plan.now (as_read result).outcome }
    ensures records { Records plan.now (as_read result).plan }
{
    let counts = read_counts(plan);
    let givens = read_givens(plan, counts);
    let tables = read_tables(plan, givens);
    let rules = read_rules(plan, tables);
    let uses = read_uses(plan, rules);
    let units = read_units(plan, uses);
    let edges = read_edges(plan, units);
    let shows = read_shows(plan, edges);
    let command = shows.command;
    match command {
        Command::Fault(fault) => Err(fault),
        _ => Ok(shows.plan),
    }
}
