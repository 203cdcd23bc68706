// The two lent areas: a list of positions, one word each, and rows of four words. Refusal 22.
ghost use Rattle.std.specs.Prelude.{◌≡◌};
ghost use Rattle.atoms.specs.Bounded.{Decides};
ghost use Rattle.relay_rows.specs.Columns.{kept_from as kept_of};
ghost use Rattle.relay_rows.specs.RowAnswers.{rows_code, Suits};

use atoms::ATOMS;
use plan::CODE_STEP;

// How many words an area has, and how many positions: either way 64 times 256 bits.
pub const AREA_WORDS: usize = 256;

// How many words a row has, a bit for each position.
pub const ROW_WORDS: usize = 4;

const MAX_COUNT: u64 = AREA_WORDS as u64;

// Why nothing is written: an area is too short, or the count too large.
#[derive(Clone, Copy)]
pub struct NoSheet;

// The number of the refusal, document 02, S-9; its spot is 0.
const NO_SHEET: u64 = 22;

// 0 where the area is written, else the code of the refusal.
pub fn rearranged_code(rearranged: Result<(), NoSheet>) -> u64
    ensures { result ≡ rows_code rearranged }
{
    match rearranged {
        Ok(()) => 0,
        Err(_) => CODE_STEP * NO_SHEET,
    }
}

// Whether areas of these lengths and the count are taken.
pub fn suits(read: usize, written: usize, count: u64) -> bool
    ensures { Decides (Suits read written count) result }
{
    AREA_WORDS <= read && AREA_WORDS <= written && count <= MAX_COUNT
}

// How many of the 64 positions from `from` on are below the count.
pub fn kept(count: usize, from: usize) -> usize
    ensures { result ≡ kept_of count from }
{
    count.saturating_sub(from).min(ATOMS)
}
