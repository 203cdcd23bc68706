// The largest measured reading of a run of bytes.
ghost use Rattle.std.specs.Prelude.{◌≡◌, ◌+◌, ◌*◌, ◌<◌, length, true};
ghost use Rattle.packed_decimal.specs.PackedReading.{is_reading, says};
ghost use Rattle.packed_decimal.specs.MeasuredWord.{MeasuredFound};
ghost use Rattle.packed_decimal.specs.Largest.{larger as larger_of, READING_BYTES as Largest-as-READING_BYTES, reading_at};
ghost use Rattle.packed_decimal.specs.ReadingPromises.{LargestSought};

use crate::meter::{NOT_MEASURED, is_reading};
use crate::refusal::Refusal;

// The word of a reading of a run, and its place, counted in readings from 0.
#[derive(Clone, Copy)]
pub struct Placed {
    pub word: u16,
    pub place: usize,
}

const READING_BYTES: usize = 2;

// The largest measured reading of the bytes with its lowest place, or that none was measured.
pub fn find_largest(bytes: &[u8]) -> Result<Option<Placed>, Refusal>
    ensures { LargestSought bytes.now result }
{
    let whole = bytes.len() / READING_BYTES;
    let mut found = None;
    for place in 0..whole {
        let word = word_at(bytes, place);
        if !is_reading(word) {
            return Err(Refusal::BadReading(place));
        }
        found = larger(found, word, place);
    }
    if READING_BYTES * whole < bytes.len() {
        return Err(Refusal::BadReading(whole));
    }
    Ok(found)
}

// What was found with one reading more.
fn larger(found: Option<Placed>, word: u16, place: usize) -> Option<Placed>
    requires { (MeasuredFound found) × (is_reading word ≡ true) }
    ensures { result ≡ larger_of found (says word) word place }
{
    if word == NOT_MEASURED {
        return found;
    }
    let Some(best) = found else {
        return Some(Placed { word, place });
    };
    if best.word < word {
        return Some(Placed { word, place });
    }
    found
}

// The word of a reading of the bytes.
fn word_at(bytes: &[u8], place: usize) -> u16
    requires { Largest-as-READING_BYTES * place + 1 < length bytes.now }
    ensures { result ≡ reading_at bytes.now place }
{
    let at = READING_BYTES * place;
    u16::from_be_bytes([bytes[at], bytes[at + 1]])
}
