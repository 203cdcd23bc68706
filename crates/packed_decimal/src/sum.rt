// The sum of two readings.
ghost use Rattle.std.specs.Prelude.{◌≡◌, true};
ghost use Rattle.packed_decimal.specs.PackedReading.{is_reading, says};
ghost use Rattle.packed_decimal.specs.ReadingAnswers.{sum_of};
ghost use Rattle.packed_decimal.specs.ReadingPromises.{ReadingsAdded};

use crate::digits::{MODULUS, pack, unpack};
use crate::meter::NOT_MEASURED;
use crate::pair::refuse_bad;
use crate::refusal::Refusal;

// A sum: its word, and 1 where it went past 9999.
// Stays: the carry is a digit of the sum, 10,000 times it and the reading make the total (IsSum), which a bool would say no plainer.
#[derive(Clone, Copy)]
pub struct Sum {
    pub reading: u16,
    pub carry: u8,
}

// The sum modulo 10,000, and its carry.
pub fn add(a: u16, b: u16) -> Result<Sum, Refusal>
    ensures { ReadingsAdded a b result }
{
    refuse_bad(a, b)?;
    Ok(sum_of(a, b))
}

// The sum of two readings that are not bad.
fn sum_of(a: u16, b: u16) -> Sum
    requires { (is_reading a ≡ true) × (is_reading b ≡ true) }
    ensures { result ≡ sum_of (says a) (says b) }
{
    if a == NOT_MEASURED || b == NOT_MEASURED {
        return Sum {
            reading: NOT_MEASURED,
            carry: 0,
        };
    }
    let total = unpack(a) + unpack(b);
    if MODULUS <= total {
        return Sum {
            reading: pack(total - MODULUS),
            carry: 1,
        };
    }
    Sum {
        reading: pack(total),
        carry: 0,
    }
}
