// A sheet by relay: a list of 256 positions as 64 rows of 256 bits, four words to a row, and back.
ghost use Rattle.exports.specs.ExportedRows.{RowsHanded, PositionsHanded};

use relay_rows::{rearranged_code, to_positions, to_rows};

// The rows of the first `count` positions of a list: bit j of row i tells whether position j has atom i up. 0, or the code of the refusal.
pub fn lucarnecress_rows(list: &[u64], count: u64, rows: &mut [u64]) -> u64
    ensures { RowsHanded list.now count rows.old rows.new result }
{
    rearranged_code(to_rows(list, count, rows))
}

// The list of the first `count` positions of rows, zeros behind. 0, or the code of the refusal.
pub fn lucarnecress_positions_of_rows(rows: &[u64], count: u64, list: &mut [u64]) -> u64
    ensures { PositionsHanded rows.now count list.old list.new result }
{
    rearranged_code(to_positions(rows, count, list))
}
