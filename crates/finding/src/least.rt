// What is sought behind a place: the start where there is none, and else a position, which is not behind itself.
ghost use Rattle.std.specs.Prelude.{◌<◌, length};
ghost use Rattle.atoms.specs.Bounded.{Decides};
ghost use Rattle.finding.specs.Least.{Behind};
ghost use Rattle.finding.specs.Gather.{Added, Sought, OfferedNext};

// Whether m is behind the place.
pub fn is_behind(from: Option<u64>, m: u64) -> bool
    ensures { Decides (Behind from m) result }
{
    match from {
        None => true,
        Some(p) => p < m,
    }
}

// Whether m is behind the place, and not among the words that are passed over.
fn is_sought(from: Option<u64>, passed: &[u64], m: u64) -> bool
    ensures { Decides (Sought from passed.now m) result }
{
    is_behind(from, m) && !passed.contains(&m)
}

// Puts m into the next word if it is sought: the new count.
pub fn put(out: &mut [u64], count: usize, from: Option<u64>, passed: &[u64], m: u64) -> usize
    requires { count < length out.old }
    ensures { Added (OfferedNext from passed.now m) out.old count out.new result }
{
    if !is_sought(from, passed, m) {
        return count;
    }
    out[count] = m;
    count + 1
}
