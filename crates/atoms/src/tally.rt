// Counts of all atoms side by side, in binary places: word i of `places` has the atoms whose count has place i. A tally is for preferences.
ghost use Rattle.std.specs.Prelude.{◌≡◌};
ghost use Rattle.atoms.specs.Word.{SomeOf};
ghost use Rattle.atoms.specs.Tally.{Tallied, preferred, MostCounted};

use crate::cut;

// Adds one to the count of each atom of the word. What is carried beyond the last place is lost.
pub fn count_atoms(places: &mut [u64], word: u64)
    ensures { Tallied word places.old places.new }
{
    let mut carried = word;
    for place in places.iter_mut() {
        if carried == 0 {
            return;
        }
        let here = *place;
        *place = here ^ carried;
        carried = cut(here, carried);
    }
}

// The atoms of both words, or of the first where none is in both.
pub fn prefer(word: u64, better: u64) -> u64
    requires { word ≡ 0 → ⊥ }
    ensures some { SomeOf word result }
    ensures is { result ≡ preferred word better }
{
    let both = cut(word, better);
    if both == 0 {
        return word;
    }
    both
}

// The atoms of the word with the highest count.
pub fn most(places: &[u64], word: u64) -> u64
    requires { word ≡ 0 → ⊥ }
    ensures some { SomeOf word result }
    ensures most { MostCounted places.now word result }
{
    let mut best = word;
    for place in places.iter().rev() {
        best = prefer(best, *place);
    }
    best
}
