// The atoms up in all positions of a list, and those up in some.
ghost use Rattle.questions.specs.Common.{CommonAtoms};

#[derive(Clone, Copy)]
pub struct Common {
    pub all: u64,
    pub some: u64,
}

// For an empty list all 64 and none.
pub fn common_atoms(list: &[u64]) -> Common
    ensures { CommonAtoms list.now result }
{
    let mut all = atoms::first(atoms::ATOMS);
    let mut some = 0;
    for &position in list {
        all = atoms::cut(all, position);
        some = atoms::union(some, position);
    }
    Common { all, some }
}
