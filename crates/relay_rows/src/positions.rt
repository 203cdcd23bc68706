// The way back: a word for each position below the count, zeros behind.
ghost use Rattle.relay_rows.specs.RowAnswers.{PositionsAnswered, PartTakes, PositionPart};

use crate::area::{NoSheet, ROW_WORDS, kept, suits};
use crate::block::turn;
use crate::strided::{read_block, write_block};
use atoms::{ATOMS, first};

// Rearranges 64 rows into the list of their first `count` positions, zeros behind, 64 positions at a time.
pub fn to_positions(rows: &[u64], count: u64, list: &mut [u64]) -> Result<(), NoSheet>
    ensures { PositionsAnswered rows.now count list.old list.new result }
{
    if !suits(rows.len(), list.len(), count) {
        return Err(NoSheet);
    }
    for q in 0..ROW_WORDS {
        write_part(rows, count as usize, q, list);
    }
    Ok(())
}

// Writes the positions from 64 * q on, from word q of each row.
// Stays: one function for this and `write_word` would take the start, the stride, the length and the mask of both ways, which is no plainer.
fn write_part(rows: &[u64], count: usize, q: usize, list: &mut [u64])
    requires { PartTakes rows.now list.old q }
    ensures { PositionPart rows.now count q list.old list.new }
{
    let at = q * ATOMS;
    let block = read_block(rows, q, ROW_WORDS, ATOMS, first(kept(count, at)));
    write_block(turn(block), at, 1, list);
}
