// Two words handed back, as far as there is room.
ghost use Rattle.std.specs.Prelude.{◌≡◌, [], ◌∷◌};
ghost use Rattle.exports.specs.HandedOut.{copied};

// Writes two words, as far as there is room.
// Stays: a copy of a length that is not known is a call of memcpy, and so 4 KiB more of stack for the two exports that hand over a pair; with `first_mut` and
// `get_mut` the proof didn't close.
pub fn write_pair(first: u64, second: u64, found: &mut [u64])
    ensures { found.new ≡ copied (first ∷ second ∷ []) found.old }
{
    if found.len() == 0 {
        return;
    }
    found[0] = first;
    if found.len() == 1 {
        return;
    }
    found[1] = second;
}
