// Whether pilots follow their tables at a full position.
ghost use Rattle.std.specs.Prelude.{◌≡◌, ◌≤◌, ◌<◌, length, get_or};
ghost use Rattle.atoms.specs.Bounded.{Decides};
ghost use Rattle.plan.specs.Limits.{MAX_TABLES};
ghost use Rattle.pilots.specs.Pilots.{FollowsTable, FollowAll};

use crate::link::are_none;
use contact_tables::agreeing_rows;
use plan::{CONTACT_WORDS, MAX_TABLES};

// A word of the rules, and none behind their end.
pub fn word_at(words: &[u64], i: usize) -> u64
    ensures { result ≡ get_or words.now i 0 }
{
    words.get(i).copied().unwrap_or(0)
}

// Whether the pilot follows table t at the position: of a full position one row is left.
fn follows(rules: &[u64], t: usize, pilot: u64, position: u64) -> bool
    requires { t < MAX_TABLES }
    ensures { Decides (FollowsTable rules.now t pilot position) result }
{
    if pilot == 0 {
        return true;
    }
    let inputs = word_at(rules, CONTACT_WORDS * t);
    let truth = word_at(rules, CONTACT_WORDS * t + 1);
    let rows = agreeing_rows(inputs, position, atoms::outside(position));
    if atoms::is_subset(rows, truth) {
        return atoms::is_subset(pilot, position);
    }
    atoms::are_apart(pilot, position)
}

// Whether all pilots follow their tables at the position.
pub fn follow_all(rules: &[u64], pilots: &[u64], position: u64) -> bool
    requires { MAX_TABLES ≤ length pilots.now }
    ensures { Decides (FollowAll rules.now pilots.now position) result }
{
    if are_none(pilots) {
        return true;
    }
    for t in 0..MAX_TABLES {
        if !follows(rules, t, pilots[t], position) {
            return false;
        }
    }
    true
}
