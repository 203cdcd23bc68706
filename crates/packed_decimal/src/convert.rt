// One reading to a whole number, and back.
ghost use Rattle.packed_decimal.specs.ReadingPromises.{Numbered, Repacked};

use crate::digits::{MODULUS, pack};
use crate::meter::{NOT_MEASURED, Reading, is_reading, says};
use crate::refusal::Refusal;

// The whole number that the reading says, or that nothing was measured.
pub fn to_number(word: u16) -> Result<Reading, Refusal>
    ensures { Numbered word result }
{
    if !is_reading(word) {
        return Err(Refusal::BadReading(0));
    }
    Ok(says(word))
}

// The reading that says the whole number; not measured stays so.
pub fn to_reading(number: Reading) -> Result<u16, Refusal>
    ensures { Repacked number result }
{
    let Some(x) = number else {
        return Ok(NOT_MEASURED);
    };
    if MODULUS <= x {
        return Err(Refusal::LargeNumber);
    }
    Ok(pack(x))
}
