// The atoms of a word one after the other, the lowest first.
ghost use Rattle.std.specs.Prelude.{◌≡◌};
ghost use Rattle.std.specs.Int.Count.{ones};
ghost use Rattle.std.specs.Iterator.{at_most};
ghost use Rattle.atoms.specs.Each.{NextAtom};

use crate::{drop, lowest};

// The atoms of a word that are still to come.
#[derive(Clone, Copy)]
pub struct Members {
    pub rest: u64,
}

impl Iterator for Members {
    type Item = usize;

    ghost next_gives = { λ s r t. NextAtom s.rest r t.rest };

    ghost remaining = { λ s. at_most (ones s.rest) };

    fn next(&mut self) -> Option<usize> {
        if self.rest == 0 {
            return None;
        }
        let atom = lowest(self.rest);
        self.rest = drop(self.rest, atom);
        Some(atom)
    }
}

// The atoms of the word.
pub fn each(which: u64) -> Members
    ensures { result ≡ record { rest = which } }
{
    Members { rest: which }
}
