// A plan of data/ read, and judged at one position: one line.
use crate::files;
use plan::Fault;
use std::fs::File;
use std::os::fd::AsRawFd;
use std::rt::Files;

// The descriptor of standard output.
const STDOUT_FILENO: i32 = 1;

// Writes bytes to standard output.
fn write(text: &[u8]) {
    io::write_all(STDOUT_FILENO, text);
}

// Writes a label and a number behind it.
fn write_number(label: &[u8], number: u64) {
    write(label);
    io::print_decimal(STDOUT_FILENO, number);
}

// Writes the numbers of COUNT, the words of GIVEN and SHOW and how many tables and uses there are, if any, and how many rules, units and edges, if the
// plan reads.
fn write_counts(plan: &[u8]) {
    let Ok(read) = reading::read_plan(plan) else {
        return;
    };
    if 0 < read.once.declared.count {
        write_number(b" declared ", read.once.declared.rules as u64);
        write_number(b" ", read.once.declared.units as u64);
        write_number(b" ", read.once.declared.edges as u64);
    }
    if 0 < read.once.given.count {
        write_number(b" given ", read.once.given.word);
    }
    if 0 < read.table_count {
        write_number(b" tables ", read.table_count as u64);
    }
    write_number(b" rules ", read.rule_count as u64);
    if 0 < read.use_count {
        write_number(b" uses ", read.use_count as u64);
    }
    write_number(b" units ", read.unit_count as u64);
    write_number(b" edges ", read.edge_count as u64);
    if 0 < read.once.shown.count {
        write_number(b" shown ", read.once.shown.word);
    }
}

// Writes a refusal as the sheet has it: its number and its spot.
fn write_refusal(fault: Fault) {
    write_number(b" refused ", plan::fault_number(fault));
    write_number(b" at ", plan::fault_spot(fault) as u64);
    write(b"\n");
}

// Writes the answer for the plan at the position.
fn write_answer(plan: &[u8], position: u64) {
    match judge::judge(plan, position) {
        Ok(true) => {
            write_number(b" position ", position);
            write(b" settled\n");
        }
        Ok(false) => {
            write_number(b" position ", position);
            write(b" not settled\n");
        }
        Err(fault) => write_refusal(fault),
    }
}

// Writes one line: the plan's name, what reading the plan of that name gives, and the answer at the position.
pub fn ask_position(rt: &(impl Files<File = File> + Eprint), name: &[u8], position: u64) {
    write(name);
    let Some(file) = files::open(rt, name) else {
        return;
    };
    let mut plan = io::large_buffer();
    let length = io::read_full(file.as_raw_fd(), &mut plan);
    drop(file);
    write_counts(&plan[..length]);
    write_answer(&plan[..length], position);
}
