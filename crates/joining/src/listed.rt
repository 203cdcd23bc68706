// Whether a list has a value.
ghost use Rattle.std.specs.Prelude.{◌≡◌};
ghost use Rattle.joining.specs.Joins.{is_among};

// Whether the value is in the list: where a rising list would have it, or else anywhere.
pub fn contains(list: &[u64], value: u64) -> bool
    ensures { result ≡ is_among list.now value }
{
    match list.binary_search(&value) {
        Ok(_) => true,
        Err(_) => list.contains(&value),
    }
}
