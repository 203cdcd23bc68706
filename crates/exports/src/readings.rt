// Readings in packed decimal: a reading passes as 16 bits, its first byte the high one; not measured is 65,535.
ghost use Rattle.std.specs.Prelude.{◌≡◌};
ghost use Rattle.exports.specs.Readings.{refused_code, said_code, reading_asked as asked_for, sum_code, order_code, found_code, found_words};
ghost use Rattle.exports.specs.Readings.{NumberHanded, ReadingHanded, SumHanded, CompareHanded, LargestHanded};

use crate::pair::write_pair;
use packed_decimal::{
    NOT_MEASURED, Placed, Reading, Refusal, Sum, add, compare, find_largest, refusal_number,
    refusal_spot, to_number, to_reading,
};
use plan::{CODE_STEP, code_of};
use std::cmp::Ordering;

// Not measured, as a number.
const NO_NUMBER: u64 = NOT_MEASURED as u64;

// The code of a refusal.
fn refused_code(refusal: Refusal) -> u64
    ensures { result ≡ refused_code refusal }
{
    code_of(refusal_number(refusal), refusal_spot(refusal))
}

// The whole number that a reading says, or 65,535.
fn said_code(said: Reading) -> u64
    ensures { result ≡ said_code said }
{
    said.unwrap_or(NO_NUMBER)
}

// What a host asks to be said: a whole number, or with 65,535 that nothing was measured.
fn asked(number: u64) -> Reading
    ensures { result ≡ asked_for number }
{
    if number == NO_NUMBER {
        return None;
    }
    Some(number)
}

// A sum: 65,536 times its carry, and its reading.
fn sum_code(sum: Sum) -> u64
    ensures { result ≡ sum_code sum }
{
    CODE_STEP * u64::from(sum.carry) + u64::from(sum.reading)
}

// A comparison: 0 below, 1 equal, 2 above, 65,535 not measured.
fn order_code(order: Option<Ordering>) -> u64
    ensures { result ≡ order_code order }
{
    match order {
        Some(Ordering::Less) => 0,
        Some(Ordering::Equal) => 1,
        Some(Ordering::Greater) => 2,
        None => NO_NUMBER,
    }
}

// Hands over what was found: 1 with its word and place, as far as there is room; 0 where nothing was.
fn hand_found(what: Option<Placed>, found: &mut [u64]) -> u64
    ensures value { result ≡ found_code what }
    ensures found_after { found.new ≡ found_words what found.old }
{
    let Some(largest) = what else {
        return 0;
    };
    write_pair(u64::from(largest.word), largest.place as u64, found);
    1
}

// The whole number that a reading says: 65,535 where nothing was measured, else the code of the refusal.
pub fn lucarnecress_reading_number(reading: u16) -> u64
    ensures { NumberHanded reading result }
{
    match to_number(reading) {
        Ok(said) => said_code(said),
        Err(refusal) => refused_code(refusal),
    }
}

// The reading that says a whole number, and 65,535 for 65,535; else the code of the refusal.
pub fn lucarnecress_reading_of(number: u64) -> u64
    ensures { ReadingHanded number result }
{
    match to_reading(asked(number)) {
        Ok(word) => u64::from(word),
        Err(refusal) => refused_code(refusal),
    }
}

// The sum of two readings modulo 10,000: 65,536 times the carry plus the reading, else the code of the refusal.
pub fn lucarnecress_reading_sum(a: u16, b: u16) -> u64
    ensures { SumHanded a b result }
{
    match add(a, b) {
        Ok(sum) => sum_code(sum),
        Err(refusal) => refused_code(refusal),
    }
}

// A reading against a limit: 0 below, 1 equal, 2 above, 65,535 not measured, else the code of the refusal.
pub fn lucarnecress_reading_compare(reading: u16, limit: u16) -> u64
    ensures { CompareHanded reading limit result }
{
    match compare(reading, limit) {
        Ok(order) => order_code(order),
        Err(refusal) => refused_code(refusal),
    }
}

// The largest measured reading of a run of bytes: 1 with its word and place in the lent words, 0 where none was measured, else the code of
// the refusal.
pub fn lucarnecress_reading_largest(bytes: &[u8], found: &mut [u64]) -> u64
    ensures { LargestHanded bytes.now found.old found.new result }
{
    match find_largest(bytes) {
        Ok(what) => hand_found(what, found),
        Err(refusal) => refused_code(refusal),
    }
}
