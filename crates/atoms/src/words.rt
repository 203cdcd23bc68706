// Words copied from one area to another.
ghost use Rattle.std.specs.Prelude.{◌≡◌, ◌+◌, ◌≤◌, length};
ghost use Rattle.std.proofs.Math.Seq.{paste};

// Writes the words into the area from `base` on.
pub fn store(words: &[u64], area: &mut [u64], base: usize)
    requires { base + length words.now ≤ length area.old }
    ensures { area.new ≡ paste area.old base words.now (length words.now) }
{
    area[base..base + words.len()].copy_from_slice(words);
}
