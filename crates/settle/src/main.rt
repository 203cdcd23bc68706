// settle: reads a plan from standard input and writes its sheet.
#![tactic(auto)]

use plan_sheet::kept_sheet;

// The descriptors of the three standard streams.
const STDIN_FILENO: i32 = 0;

const STDOUT_FILENO: i32 = 1;

const STDERR_FILENO: i32 = 2;

fn main() {
    let mut plan = io::buffer();
    let read = io::read_full(STDIN_FILENO, &mut plan);
    let sheet = kept_sheet(plan, read);
    let bytes = sheet.bytes;
    let length = sheet.length;
    if !io::write_all(STDOUT_FILENO, &bytes[0..length]) {
        io::write_all(STDERR_FILENO, b"the sheet was not written in full\n");
    }
}
