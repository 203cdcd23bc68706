// Plans of data/, whole and faulty, read and judged: one line for each question of data/asked.txt, which says why it is asked. data/reading/PLANS.md says
// what each faulty plan is and how its line comes about. What sheets the sample plans have is compared by tests/settle.sh.
#![tactic(auto)]

mod answers;
mod files;
mod questions;

use std::os::fd::AsRawFd;

// All questions in order.
fn main(rt: HostRuntime) {
    let Some(file) = files::open(&rt, b"asked.txt") else {
        return;
    };
    let mut text = io::large_buffer();
    let length = io::read_full(file.as_raw_fd(), &mut text);
    drop(file);
    questions::ask_all(&rt, &text[..length]);
}
