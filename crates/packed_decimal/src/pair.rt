// Two readings given together.
ghost use Rattle.std.specs.Prelude.{◌≡◌, [], ◌∷◌};
ghost use Rattle.packed_decimal.specs.ReadingRefusals.{unless_bad_of};

use crate::meter::is_reading;
use crate::refusal::Refusal;

// Refuses the first of the two that is bad, by its number from 0.
pub fn refuse_bad(a: u16, b: u16) -> Result<(), Refusal>
    ensures { result ≡ unless_bad_of (a ∷ b ∷ []) tt }
{
    if !is_reading(a) {
        return Err(Refusal::BadReading(0));
    }
    if !is_reading(b) {
        return Err(Refusal::BadReading(1));
    }
    Ok(())
}
