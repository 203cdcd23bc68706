// What a plan gets, and the listing of a refusal.
ghost use Rattle.std.specs.Prelude.{◌≡◌};
ghost use Rattle.demands.specs.Handed.{refusal};

use plan::{COUNTS, Fault};

// What a plan gets: listed or refused, and the seventeen counts. Its lists are in the lent table.
// Stays: the counts of a refusal are promised too, all 0 (`refusal` in specs/Handed.antt), so they stand beside the outcome and not in its Ok.
#[derive(Clone, Copy)]
pub struct Listing {
    pub outcome: Result<(), Fault>,
    pub counts: [usize; COUNTS],
}

// A refusal: the counts are all 0.
pub fn refuse(fault: Fault) -> Listing
    ensures { result ≡ refusal fault }
{
    Listing {
        outcome: Err(fault),
        counts: [0; COUNTS],
    }
}
