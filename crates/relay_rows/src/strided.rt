// Blocks of 64 words that stand `stride` apart in an area.
ghost use Rattle.atoms.specs.Word.{ATOMS as Word-as-ATOMS};
ghost use Rattle.std.specs.Prelude.{get_or};
ghost use Rattle.relay_rows.specs.Columns.{Readable, BlockRead, Writable, Scattered};

use atoms::{ATOMS, cut};

// The first n words from `at` on, cut to the mask, and zeros behind.
pub fn read_block(area: &[u64], at: usize, stride: usize, n: usize, mask: u64) -> [u64; ATOMS]
    requires { Readable area.now at stride n }
    ensures { BlockRead area.now at stride mask n result }
{
    let mut block = [0u64; ATOMS];
    for k in 0..n {
        block[k] = cut(area[at + stride * k], mask);
    }
    block
}

// Writes the block's words from `at` on.
pub fn write_block(block: [u64; ATOMS], at: usize, stride: usize, area: &mut [u64])
    requires { Writable area.old at stride }
    ensures { Scattered (λ k. get_or block k 0) at stride area.old area.new Word-as-ATOMS }
{
    for k in 0..ATOMS {
        area[at + stride * k] = block[k];
    }
}
