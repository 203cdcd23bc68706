// Which atoms the subset test tries next. Of free atoms any would be right; these leave little to search.
ghost use Rattle.std.specs.Prelude.{◌≡◌};
ghost use Rattle.atoms.specs.Word.{SomeOf};
ghost use Rattle.answer_sets.specs.Lent.{IsLent, Lent};
ghost use Rattle.answer_sets.specs.SubsetTest.{Candidates};

use crate::rule::{RULE_PLACES, head, looks, positive_body};
use atoms::tally::{count_atoms, most};

// The free atoms by which the rule may come to be satisfied: of its head, else of its body.
pub fn candidates(rules: &[u64], rule: usize, free: u64) -> u64
    requires { IsLent rules.now rule }
    ensures { Candidates rules.now rule free result }
{
    let heads = atoms::cut(free, head(rules, rule));
    if heads != 0 {
        return heads;
    }
    let body = atoms::union(positive_body(rules, rule), looks(rules, rule));
    atoms::cut(free, body)
}

// The free atoms that stand in most positive bodies of the rules.
fn most_wanted(rules: &[u64], which: u64, free: u64) -> u64
    requires { Lent rules.now which × (free ≡ 0 → ⊥) }
    ensures { SomeOf free result }
{
    let mut places = [0u64; RULE_PLACES];
    for rule in atoms::each(which) {
        count_atoms(&mut places, positive_body(rules, rule));
    }
    most(&places, free)
}

// Some of the free atoms. While no atom of the position is dropped, those that most bodies want: all that is left may depend on one of them. Then those of
// the choice.
pub fn tried_next(
    rules: &[u64],
    which: u64,
    position: u64,
    dropped: u64,
    free: u64,
    choice: u64,
) -> u64
    requires { Lent rules.now which × SomeOf free choice }
    ensures { SomeOf free result }
{
    if !atoms::are_apart(dropped, position) {
        return choice;
    }
    most_wanted(rules, which, free)
}
