// Several positions in one call, for other languages.
ghost use Rattle.std.specs.Prelude.{None, Some};
ghost use Rattle.exports.specs.Replies.{Reply};
ghost use Rattle.exports.specs.Batches.{batch_code, count_in, BatchHanded};

use crate::steps::hand_word;
use plan::{Fault, refusal_code};
use stepping::next_positions;

// The code of the result; how many positions were written goes into the first word of the count, if there is room.
fn hand_batch(batch: Result<usize, Fault>, count: &mut [u64]) -> u64
    ensures { Reply batch_code count_in batch count.old count.new result }
{
    match batch {
        Ok(written) => hand_word(written as u64, count, 0),
        Err(fault) => refusal_code(fault),
    }
}

// The least positions of a plan, rising, in the lent words: 0 with their number in the first word of the count, else the code of the refusal.
pub fn lucarnecress_first_positions(plan: &[u8], found: &mut [u64], count: &mut [u64]) -> u64
    ensures { BatchHanded plan.now None found.old found.new count.old count.new result }
{
    hand_batch(next_positions(plan, None, found), count)
}

// The least positions of a plan above the given one, in the same way.
pub fn lucarnecress_next_positions(
    plan: &[u8],
    position: u64,
    found: &mut [u64],
    count: &mut [u64],
) -> u64
    ensures { BatchHanded plan.now (Some position) found.old found.new count.old count.new result }
{
    hand_batch(next_positions(plan, Some(position), found), count)
}
