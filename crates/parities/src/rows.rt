// Rows of parities in lent words: row i says whether an odd number of its atoms is up, by bit i of a word. Rows are added to rows until the lowest atom
// of each is in no other, and a row with one atom decides it.
ghost use Rattle.std.specs.Prelude.{◌≡◌, ◌<◌, length};
ghost use Rattle.atoms.specs.Word.{ATOMS, digit};
ghost use Rattle.states.specs.Narrowing.{Narrows};
ghost use Rattle.parities.specs.Parity.{◌△◌};
ghost use Rattle.parities.specs.ParityRows.{SUM_ROWS as Rows-as-ROWS, RowHolds, RowsHold, BitPut, SameRows};

use plan::MAX_TABLES;
use states::{State, one_up};

// A row for each table.
pub const ROWS: usize = MAX_TABLES;

// A row by itself: its atoms, and 1 where an odd number of them is up.
// Stays: the definitions open_row, use_row and RowHolds count with the bit as a number.
#[derive(Clone, Copy)]
pub struct Row {
    pub word: u64,
    pub bit: usize,
}

// The atoms that are in one of the words and not in both.
pub fn sum(a: u64, b: u64) -> u64
    ensures { result ≡ a △ b }
{
    atoms::union(atoms::without(a, b), atoms::without(b, a))
}

// Bit i as a number.
fn bit_of(bits: u64, i: usize) -> usize
    requires { i < ATOMS }
    ensures { result ≡ digit bits i }
{
    if atoms::are_apart(bits, atoms::single(i)) {
        return 0;
    }
    1
}

// The word with bit i put.
pub fn put_bit(bits: u64, i: usize, bit: usize) -> u64
    requires { (i < ATOMS) × (bit < 2) }
    ensures { BitPut bits i bit result }
{
    if bit == 0 {
        return atoms::drop(bits, i);
    }
    atoms::union(bits, atoms::single(i))
}

// Adds one row to another: the new word of bits.
fn add_row(words: &mut [u64], bits: u64, from: usize, to: usize) -> u64
    requires { (length words.old ≡ Rows-as-ROWS) × (from < Rows-as-ROWS) × (to < Rows-as-ROWS) × ((from ≡ to) → ⊥) }
    ensures { SameRows words.old bits words.new result }
{
    words[to] = sum(words[to], words[from]);
    put_bit(bits, to, (bit_of(bits, to) + bit_of(bits, from)) % 2)
}

// Adds a row to another one that has the atom: the new word of bits.
fn sum_into(words: &mut [u64], bits: u64, from: usize, to: usize, atom: u64) -> u64
    requires { (length words.old ≡ Rows-as-ROWS) × (from < Rows-as-ROWS) × (to < Rows-as-ROWS) }
    ensures { SameRows words.old bits words.new result }
{
    if from == to {
        return bits;
    }
    if atoms::are_apart(words[to], atom) {
        return bits;
    }
    add_row(words, bits, from, to)
}

// Sums the lowest atom of a row out of the other rows: the new word of bits.
fn sum_out(words: &mut [u64], bits: u64, row: usize) -> u64
    requires { (length words.old ≡ Rows-as-ROWS) × (row < Rows-as-ROWS) }
    ensures { SameRows words.old bits words.new result }
{
    let word = words[row];
    if word == 0 {
        return bits;
    }
    let atom = atoms::single(atoms::lowest(word));
    let mut sums = bits;
    for to in 0..ROWS {
        sums = sum_into(words, sums, row, to, atom);
    }
    sums
}

// Sums the lowest atom of each row out of the others: the new word of bits.
pub fn sum_rows(words: &mut [u64], bits: u64) -> u64
    requires { length words.old ≡ Rows-as-ROWS }
    ensures { SameRows words.old bits words.new result }
{
    let mut sums = bits;
    for row in 0..ROWS {
        sums = sum_out(words, sums, row);
    }
    sums
}

// The state after a row: where an odd number of its atoms has to be up one goes up if it is alone, and nothing completes the state if there is none;
// where an even number has to be up, one that is alone is dropped.
fn read_row(word: u64, bit: usize, s: State) -> State
    requires { bit < 2 }
    ensures { Narrows (RowHolds word bit) s result }
{
    if bit == 1 {
        return one_up(word, s);
    }
    if !atoms::at_most_one(word) {
        return s;
    }
    State {
        dropped: atoms::union(s.dropped, word),
        ..s
    }
}

// The state after all rows.
pub fn read_rows(words: &[u64], bits: u64, s: State) -> State
    requires { length words.now ≡ Rows-as-ROWS }
    ensures { Narrows (RowsHold words.now bits) s result }
{
    let mut t = s;
    for (row, word) in words.iter().enumerate() {
        t = read_row(*word, bit_of(bits, row), t);
    }
    t
}
