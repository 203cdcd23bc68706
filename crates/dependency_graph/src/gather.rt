// What is gathered over the numbers of a word.
ghost use Rattle.std.specs.Prelude.{ℕ};
ghost use Rattle.atoms.specs.Word.{Has};
ghost use Rattle.dependency_graph.specs.Gathered.{HoldingOf, UnionOver};

// The numbers of the word of which the test holds.
pub fn where_holds<F: Fn(usize) -> bool>(which: u64, test: F) -> u64
    requires { (i : ℕ) → Has which i → F.pre test i }
    ensures { HoldingOf (F.post test) which result }
{
    let mut found = 0;
    for i in atoms::each(which) {
        found = atoms::union(found, atoms::single_if(test(i), i));
    }
    found
}

// The atoms of the words of the word's numbers.
pub fn union_over<F: Fn(usize) -> u64>(which: u64, word: F) -> u64
    requires { (i : ℕ) → Has which i → F.pre word i }
    ensures { UnionOver (F.post word) which result }
{
    let mut all = 0;
    for i in atoms::each(which) {
        all = atoms::union(all, word(i));
    }
    all
}
