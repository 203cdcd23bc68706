// The questions of data/asked.txt, one on each line: sixteen hexadecimal digits of a position, a space, a plan's name. A line that begins with '#', and
// one that is too short, asks nothing.
use crate::answers::ask_position;
use std::fs::File;
use std::rt::Files;

const DIGITS: usize = 16;

// Where a plan's name starts in its line.
const NAME: usize = DIGITS + 1;

// What a hexadecimal digit says; other bytes say 0.
fn digit_value(byte: u8) -> u64 {
    match byte {
        b'0'..=b'9' => u64::from(byte - b'0'),
        b'a'..=b'f' => u64::from(byte - b'a') + 10,
        _ => 0,
    }
}

// The position of a line: what its hexadecimal digits say, highest first.
fn position_of(line: &[u8]) -> u64 {
    let mut position = 0u64;
    for &byte in line.iter().take(DIGITS) {
        position = (position << 4) | digit_value(byte);
    }
    position
}

// Asks the question of one line.
fn ask_line(rt: &(impl Files<File = File> + Eprint), line: &[u8]) {
    if line.len() <= NAME || line[0] == b'#' {
        return;
    }
    ask_position(rt, &line[NAME..], position_of(line));
}

// Asks the questions of all lines.
pub fn ask_all(rt: &(impl Files<File = File> + Eprint), text: &[u8]) {
    for line in text.split(|&byte| byte == b'\n') {
        ask_line(rt, line);
    }
}
