// Refusal 20, with its spot.
ghost use Rattle.std.specs.Prelude.{◌≡◌};
ghost use Rattle.packed_decimal.specs.ReadingRefusals.{refusal_number, refusal_spot};

// What is refused: a bad reading, by its number from 0 among those given; or a whole number above 9999.
#[derive(Clone, Copy)]
pub enum Refusal {
    BadReading(usize),
    LargeNumber,
}

const NUMBER: u64 = 20;

// The number of the refusal.
pub fn refusal_number(refusal: Refusal) -> u64
    ensures { result ≡ refusal_number refusal }
{
    match refusal {
        Refusal::BadReading(_) => NUMBER,
        Refusal::LargeNumber => NUMBER,
    }
}

// The spot of the refusal.
pub fn refusal_spot(refusal: Refusal) -> usize
    ensures { result ≡ refusal_spot refusal }
{
    match refusal {
        Refusal::BadReading(place) => place,
        Refusal::LargeNumber => 0,
    }
}
