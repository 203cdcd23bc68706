// The counter: it goes through the list once, and holds each position against all questions.
ghost use Rattle.std.specs.Prelude.{◌≡◌, ◌≤◌};
ghost use Rattle.questions.specs.Counts.{MAX_QUESTIONS as Counts-as-MAX_QUESTIONS, one, fits, held, counts_of};
ghost use Rattle.questions.specs.Counting.{Holdable};

use atoms::{cut, union, without};

// How many questions may be asked together.
pub const MAX_QUESTIONS: usize = 64;

// The words of up to MAX_QUESTIONS questions, zeros behind the last.
// Stays: one array of pairs is slower, 1.2 to 1.5 times the time (LLVM, x86-64-v2), since LLVM makes vectors of the loop in `hold`.
#[derive(Clone, Copy)]
pub struct Asked {
    pub up: [u64; MAX_QUESTIONS],
    pub dropped: [u64; MAX_QUESTIONS],
}

// 1 where the position has every up atom and no dropped one, and 0 where it does not.
fn one_if_fits(up: u64, dropped: u64, position: u64) -> u64
    ensures { result ≡ one (fits up dropped position) }
{
    let amiss = union(without(up, position), cut(dropped, position));
    u64::from(amiss == 0)
}

// Holds one position against the first n questions: the counts of those that it fits rise by one.
fn hold<'a>(position: u64, n: usize, up: &'a [u64], dropped: &'a [u64], counts: &mut [u64])
    requires { Holdable n up.now dropped.now counts.old }
    ensures { counts.new ≡ held position n up.now dropped.now counts.old }
{
    for i in 0..n {
        counts[i] += one_if_fits(up[i], dropped[i], position);
    }
}

// How many listed positions fit each of the first n questions; 0 for those behind them.
pub fn counts_of(list: &[u64], asked: Asked, n: usize) -> [u64; MAX_QUESTIONS]
    requires { n ≤ Counts-as-MAX_QUESTIONS }
    ensures { result ≡ counts_of list.now n asked.up asked.dropped }
{
    let up = asked.up;
    let dropped = asked.dropped;
    let mut counts = [0u64; MAX_QUESTIONS];
    for &position in list {
        hold(position, n, &up, &dropped, &mut counts);
    }
    counts
}
