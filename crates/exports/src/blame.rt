// The few constraints that empty a plan, for other languages.
ghost use Rattle.blaming.specs.Blamed.{blame_code};
ghost use Rattle.exports.specs.Replies.{Reply};
ghost use Rattle.exports.specs.Blame.{word_in, BlameHanded};

use crate::steps::hand_word;
use blaming::{Blame, blame_plan};
use plan::{Fault, refusal_code};

// The code of the result; a position, or the word of held constraints, goes into the first lent word, if there is room.
fn hand_blame(said: Result<Blame, Fault>, found: &mut [u64]) -> u64
    ensures { Reply blame_code word_in said found.old found.new result }
{
    match said {
        Ok(Blame::Position(position)) => hand_word(position, found, 1),
        Ok(Blame::Held(constraints)) => hand_word(constraints, found, 0),
        Err(fault) => refusal_code(fault),
    }
}

// What a plan is blamed on: 1 with its least position in the first lent word, 0 with the word of held constraints there if it has no position, else
// the code of the refusal.
pub fn lucarnecress_blame(plan: &[u8], found: &mut [u64]) -> u64
    ensures { BlameHanded plan.now found.old found.new result }
{
    hand_blame(blame_plan(plan), found)
}
