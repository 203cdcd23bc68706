// The two sheets that document 01 shows, written into buffers of their length and compared with their bytes.
#![tactic(auto)]

use check::{expect, same};

// Plan P's sheet, and that of P without its EDGE.
fn main() {
    let words = [2u64, 5u64];
    let mut listed = [0u8; 46];
    let _ = sheet::write_positions(&words, 2, &mut listed);
    expect(same(
        &listed,
        b"positions 2\n0000000000000002\n0000000000000005\n",
    ));
    let mut refused = [0u8; 16];
    let _ = sheet::write_refusal(14, 1, &mut refused);
    expect(same(&refused, b"refused 14 at 1\n"));
}
