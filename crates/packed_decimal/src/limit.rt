// A reading against a limit that is itself a reading.
ghost use Rattle.std.specs.Prelude.{◌≡◌, true};
ghost use Rattle.packed_decimal.specs.PackedReading.{is_reading, says};
ghost use Rattle.packed_decimal.specs.ReadingAnswers.{reading_order};
ghost use Rattle.packed_decimal.specs.ReadingPromises.{HeldAgainst};

use crate::meter::NOT_MEASURED;
use crate::pair::refuse_bad;
use crate::refusal::Refusal;
use std::cmp::Ordering;

// Holds a reading against a limit: None where one of them is not measured.
pub fn compare(word: u16, limit: u16) -> Result<Option<Ordering>, Refusal>
    ensures { HeldAgainst word limit result }
{
    refuse_bad(word, limit)?;
    Ok(order_of(word, limit))
}

// How two readings stand to each other. Packed digits stand as the numbers do.
fn order_of(word: u16, limit: u16) -> Option<Ordering>
    requires { (is_reading word ≡ true) × (is_reading limit ≡ true) }
    ensures { result ≡ reading_order (says word) (says limit) }
{
    if word == NOT_MEASURED || limit == NOT_MEASURED {
        return None;
    }
    Some(word.cmp(&limit))
}
