// A body at a half-decided position, and at a full one.
ghost use Rattle.std.specs.Prelude.{◌≡◌};
ghost use Rattle.atoms.specs.Word.{Apart};
ghost use Rattle.answer_sets.specs.Lent.{lent, IsLent};
ghost use Rattle.answer_sets.specs.Test.{body};
ghost use Rattle.answer_sets.specs.Known.{BodySays, WordsSay};

use crate::rule::{negative_body, positive_body};
use crate::truth::{Truth, both, is_success, word_known};
use crate::uses::{uses, with_uses};

// What is known of the two words of a body; `down` are the atoms that are dropped and not up.
pub fn words_known(rules: &[u64], rule: usize, up: u64, down: u64) -> Truth
    requires { IsLent rules.now rule × Apart up down }
    ensures { WordsSay rules.now rule up down result }
{
    let positive = word_known(positive_body(rules, rule), up, down);
    let negative = word_known(negative_body(rules, rule), down, up);
    both(positive, negative)
}

// Whether the body holds, fails or is open: each word and each use of a table by what it is in every completion. Every step asks it of every rule, so it is
// inlined there, and the loop over uses is not.
#[inline(always)]
pub fn body_known(rules: &[u64], rule: usize, up: u64, dropped: u64) -> Truth
    requires { IsLent rules.now rule }
    ensures { BodySays rules.now rule up dropped result }
{
    let words = words_known(rules, rule, up, atoms::without(dropped, up));
    if uses(rules, rule) == 0 {
        return words;
    }
    with_uses(rules, rule, up, dropped, words)
}

// Whether the body holds at the position: with everything decided, open can't be said.
pub fn body_holds(rules: &[u64], rule: usize, position: u64) -> bool
    requires { IsLent rules.now rule }
    ensures { result ≡ body (lent rules.now) rule position }
{
    is_success(body_known(rules, rule, position, atoms::outside(position)))
}
