// The step that sums parity tables: in every position whose pilots follow their tables the inputs of a parity table and its pilot have an even number up,
// or an odd one; and where a constraint says that its one use fails, so have the inputs alone. These rows are summed, and what they leave is decided.
ghost use Rattle.std.specs.Prelude.{◌≡◌, ◌<◌, ◌≤◌, length};
ghost use Rattle.plan.specs.Limits.{MAX_TABLES, FIRST_RULE};
ghost use Rattle.states.specs.Narrowing.{Narrows};
ghost use Rattle.answer_sets.specs.Program.{Satisfies, SatisfiesAll};
ghost use Rattle.answer_sets.specs.Lent.{lent, IsLent, Lent};
ghost use Rattle.pilots.specs.Pilots.{FollowAll};
ghost use Rattle.parities.specs.ParityRows.{SUM_ROWS as Rows-as-ROWS, table_row, open_row, RowsGathered};
ghost use Rattle.parities.specs.Told.{TellsParity, Summed};

use crate::rows::{ROWS, Row, put_bit, read_rows, sum, sum_rows};
use crate::tables::is_parity_table;
use crate::told::{is_held, telling_rules, use_row};
use answer_sets::uses::{USE_BITS, table_inputs, table_truth, used_table, uses};
use states::{State, undecided};

// The row of a parity table: its inputs and its pilot. With no input up the table that asks for an even number is true.
fn table_row(rules: &[u64], pilots: &[u64], t: usize) -> Row
    requires { (FIRST_RULE ≤ length rules.now) × (MAX_TABLES ≤ length pilots.now) × (t < MAX_TABLES) }
    ensures { result ≡ table_row rules.now pilots.now t }
{
    Row {
        word: sum(table_inputs(rules, t), pilots[t]),
        bit: (table_truth(rules, t) % 2) as usize,
    }
}

// The row without the atoms that are decided: those that are up turn its bit.
fn open_row(row: Row, s: State) -> Row
    requires { row.bit < 2 }
    ensures { result ≡ open_row row s }
{
    Row {
        word: atoms::cut(undecided(s.up, s.dropped), row.word),
        bit: (atoms::count(atoms::cut(s.up, row.word)) + row.bit) % 2,
    }
}

// Writes the row of table t at the state, if it is a parity with a pilot: the new word of bits.
fn gather_row(
    rules: &[u64],
    pilots: &[u64],
    t: usize,
    s: State,
    words: &mut [u64],
    bits: u64,
) -> u64
    requires { (MAX_TABLES ≤ length pilots.now) × (t < MAX_TABLES) × (length words.old ≡ Rows-as-ROWS) }
    ensures { RowsGathered (FollowAll rules.now pilots.now) s words.old bits words.new result }
{
    if !is_parity_table(rules, pilots, t) {
        return bits;
    }
    let row = open_row(table_row(rules, pilots, t), s);
    words[t] = row.word;
    put_bit(bits, t, row.bit)
}

// Writes the rows of all parity tables with a pilot: the new word of bits.
fn gather_rows(rules: &[u64], pilots: &[u64], s: State, words: &mut [u64], bits: u64) -> u64
    requires { (MAX_TABLES ≤ length pilots.now) × (length words.old ≡ Rows-as-ROWS) }
    ensures { RowsGathered (FollowAll rules.now pilots.now) s words.old bits words.new result }
{
    let mut sums = bits;
    for t in 0..ROWS {
        sums = gather_row(rules, pilots, t, s, words, sums);
    }
    sums
}

// Writes the row that a constraint with one use tells at the state, if it does: the new word of bits.
fn gather_told(rules: &[u64], rule: usize, s: State, words: &mut [u64], bits: u64) -> u64
    requires { IsLent rules.now rule × TellsParity rules.now rule × (length words.old ≡ Rows-as-ROWS) }
    ensures { RowsGathered (Satisfies (lent rules.now) rule) s words.old bits words.new result }
{
    if !is_held(rules, rule, s) {
        return bits;
    }
    let i = atoms::lowest(atoms::cut(uses(rules, rule), atoms::first(USE_BITS)));
    let row = open_row(use_row(rules, i), s);
    let t = used_table(i);
    words[t] = row.word;
    put_bit(bits, t, row.bit)
}

// Writes the rows that the constraints of the word tell: the new word of bits.
fn gather_all_told(rules: &[u64], which: u64, s: State, words: &mut [u64], bits: u64) -> u64
    requires { Lent rules.now which × (length words.old ≡ Rows-as-ROWS) }
    ensures { RowsGathered (SatisfiesAll (lent rules.now) which) s words.old bits words.new result }
{
    let mut sums = bits;
    for rule in atoms::each(telling_rules(rules, which)) {
        sums = gather_told(rules, rule, s, words, sums);
    }
    sums
}

// The state after the sums of all parity tables with a pilot, and of those that a constraint of the word tells. A pilot's row takes its place.
pub fn sum_step(rules: &[u64], pilots: &[u64], which: u64, s: State) -> State
    requires { Lent rules.now which × (MAX_TABLES ≤ length pilots.now) }
    ensures { Narrows (Summed rules.now pilots.now which) s result }
{
    let mut words = [0u64; ROWS];
    let told = gather_all_told(rules, which, s, &mut words, 0);
    let bits = gather_rows(rules, pilots, s, &mut words, told);
    let sums = sum_rows(&mut words, bits);
    read_rows(&words, sums, s)
}
