// What a search met: a member, or none.
ghost use Rattle.std.specs.Prelude.{◌≡◌};
ghost use Rattle.searching.specs.Witness.{enough};

// Whether the first branch has shown enough: a member was met, and no atom that shows is undecided.
pub fn is_enough(first: Option<u64>, left: u64) -> bool
    ensures { result ≡ enough first left }
{
    first.is_some() && left == 0
}
