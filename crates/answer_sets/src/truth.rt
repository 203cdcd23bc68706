// What is known of a test at a half-decided position, put together from what is known of its parts.
ghost use Rattle.std.specs.Prelude.{◌≡◌, true, ◌↔◌};
ghost use Rattle.answer_sets.specs.declared.truth.Truth.TheVariants.{Holds, Fails};
ghost use Rattle.atoms.specs.Word.{Apart};
ghost use Rattle.answer_sets.specs.Known.{both as both_of, opposite as opposite_of, WordSays, RowsSay};

// What is known of a test at a half-decided position.
#[derive(Clone, Copy, PartialEq, Eq)]
pub enum Truth {
    Holds,
    Fails,
    Open,
}

// Of two tests together: both hold, one fails, or neither is known.
pub fn both(a: Truth, b: Truth) -> Truth
    ensures { result ≡ both_of a b }
{
    match a {
        Truth::Fails => Truth::Fails,
        Truth::Holds => b,
        Truth::Open => match b {
            Truth::Fails => Truth::Fails,
            Truth::Holds => Truth::Open,
            Truth::Open => Truth::Open,
        },
    }
}

// Of the test that holds where this one fails.
pub fn opposite(t: Truth) -> Truth
    ensures { result ≡ opposite_of t }
{
    match t {
        Truth::Holds => Truth::Fails,
        Truth::Fails => Truth::Holds,
        Truth::Open => Truth::Open,
    }
}

// Whether the test is known to fail.
pub fn is_failure(t: Truth) -> bool
    ensures { (result ≡ true) ↔ (t ≡ Fails) }
{
    t == Truth::Fails
}

// Whether the test is known to hold.
pub fn is_success(t: Truth) -> bool
    ensures { (result ≡ true) ↔ (t ≡ Holds) }
{
    t == Truth::Holds
}

// Of a word of atoms, all of which are wanted; no atom is both wanted and barred.
pub fn word_known(word: u64, wanted: u64, barred: u64) -> Truth
    requires { Apart wanted barred }
    ensures { WordSays word wanted barred result }
{
    if !atoms::are_apart(word, barred) {
        return Truth::Fails;
    }
    if atoms::is_subset(word, wanted) {
        return Truth::Holds;
    }
    Truth::Open
}

// Of the rows that are left, at least one: whether the truth word has them.
pub fn rows_known(rows: u64, word: u64) -> Truth
    requires { rows ≡ 0 → ⊥ }
    ensures { RowsSay rows word result }
{
    if atoms::are_apart(rows, word) {
        return Truth::Fails;
    }
    if atoms::is_subset(rows, word) {
        return Truth::Holds;
    }
    Truth::Open
}
