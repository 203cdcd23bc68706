// A word noted for each atom of a set, in a table of one word for each atom.
ghost use Rattle.std.specs.Prelude.{◌+◌, ◌≤◌, length};
ghost use Rattle.atoms.specs.Word.{ATOMS};
ghost use Rattle.narrowing.specs.Marks.{Marked};

use atoms::ATOMS;

// Adds the word to the words of these atoms, which stand from `base` on.
pub fn mark(table: &mut [u64], base: usize, which: u64, word: u64)
    requires { base + ATOMS ≤ length table.old }
    ensures { Marked base which word table.old table.new }
{
    for atom in atoms::each(which) {
        table[base + atom] = atoms::union(table[base + atom], word);
    }
}
