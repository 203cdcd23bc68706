// A rising list of positions in LIST_WORDS lent words.
ghost use Rattle.std.specs.Prelude.{◌≡◌, ◌≤◌, length};
ghost use Rattle.plan.specs.Limits.{LIST_WORDS};
ghost use Rattle.searching.specs.Listing.{Inserted};

use plan::{LIST_WORDS, OVERFULL};

// Puts the value into its place among the first `count` words, unless it is there: the new count, or OVERFULL where there is no room.
pub fn insert(list: &mut [u64], count: usize, value: u64) -> usize
    requires { (count ≤ LIST_WORDS) × (length list.old ≡ LIST_WORDS) }
    ensures { Inserted list.old count value list.new result }
{
    let mut carried = value;
    for i in 0..count {
        let here = list[i];
        if carried == here {
            return count;
        }
        if carried < here {
            list[i] = carried;
            carried = here;
        }
    }
    if count == LIST_WORDS {
        return OVERFULL;
    }
    list[count] = carried;
    count + 1
}
