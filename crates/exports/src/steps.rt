// One position after the other, for other languages.
ghost use Rattle.std.specs.Prelude.{◌≡◌, [], ◌∷◌, None, Some};
ghost use Rattle.exports.specs.HandedOut.{copied};
ghost use Rattle.stepping.specs.Followed.{next_code};
ghost use Rattle.exports.specs.Replies.{Reply};
ghost use Rattle.exports.specs.Steps.{found_in, NextHanded};

use plan::{Fault, refusal_code};
use stepping::next_position;

// The word in the first lent word, if there is room. The code.
pub fn hand_word(word: u64, found: &mut [u64], code: u64) -> u64
    ensures { (result ≡ code) × (found.new ≡ copied (word ∷ []) found.old) }
{
    if found.len() == 0 {
        return code;
    }
    found[0] = word;
    code
}

// The code of the result; a position goes into the first lent word, if there is room.
fn hand_over(next: Result<Option<u64>, Fault>, found: &mut [u64]) -> u64
    ensures { Reply next_code found_in next found.old found.new result }
{
    match next {
        Ok(Some(position)) => hand_word(position, found, 1),
        Ok(None) => 0,
        Err(fault) => refusal_code(fault),
    }
}

// The least position of a plan: 1 with the position in the first lent word, 0 if there is none, else the code of the refusal.
pub fn lucarnecress_first(plan: &[u8], found: &mut [u64]) -> u64
    ensures { NextHanded plan.now None found.old found.new result }
{
    hand_over(next_position(plan, None), found)
}

// The least position of a plan above the given one: 1 with the position in the first lent word, 0 if none is left, else the code of the refusal.
pub fn lucarnecress_next(plan: &[u8], position: u64, found: &mut [u64]) -> u64
    ensures { NextHanded plan.now (Some position) found.old found.new result }
{
    hand_over(next_position(plan, Some(position)), found)
}
