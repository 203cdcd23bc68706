// One reading: whether its word is one, and what it says.
ghost use Rattle.std.specs.Prelude.{◌≡◌};
ghost use Rattle.packed_decimal.specs.PackedReading.{is_reading, says as says_of};

use crate::digits::{is_decimal, unpack};

// What a reading says: tenths of a millisecond as a whole number, or that nothing was measured.
pub type Reading = Option<u64>;

pub const NOT_MEASURED: u16 = 0xffff;

// Whether the word keeps the digit rule or is its one exception.
pub fn is_reading(word: u16) -> bool
    ensures { result ≡ is_reading word }
{
    word == NOT_MEASURED || is_decimal(word)
}

// What the reading says.
pub fn says(word: u16) -> Reading
    ensures { result ≡ says_of word }
{
    if word == NOT_MEASURED {
        return None;
    }
    Some(unpack(word))
}
