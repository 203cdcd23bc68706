// The way there: a row for each atom, a bit for each position.
ghost use Rattle.relay_rows.specs.RowAnswers.{RowsAnswered, PartTakes, RowPart};

use crate::area::{NoSheet, ROW_WORDS, kept, suits};
use crate::block::turn;
use crate::strided::{read_block, write_block};
use atoms::{ATOMS, EVERY_ATOM};

// Rearranges the first `count` positions of the list into 64 rows of 256 bits, 64 positions at a time.
pub fn to_rows(list: &[u64], count: u64, rows: &mut [u64]) -> Result<(), NoSheet>
    ensures { RowsAnswered list.now count rows.old rows.new result }
{
    if !suits(list.len(), rows.len(), count) {
        return Err(NoSheet);
    }
    for q in 0..ROW_WORDS {
        write_word(list, count as usize, q, rows);
    }
    Ok(())
}

// Writes word q of each row: the positions from 64 * q on.
fn write_word(list: &[u64], count: usize, q: usize, rows: &mut [u64])
    requires { PartTakes list.now rows.old q }
    ensures { RowPart list.now count q rows.old rows.new }
{
    let from = q * ATOMS;
    let block = read_block(list, from, 1, kept(count, from), EVERY_ATOM);
    write_block(turn(block), q, ROW_WORDS, rows);
}
