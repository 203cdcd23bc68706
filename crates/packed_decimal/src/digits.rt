// Packed decimal digits and whole numbers: the same digits, in two bases.
ghost use Rattle.std.specs.Prelude.{◌≡◌, ◌≤◌, ◌<◌};
ghost use Rattle.packed_decimal.specs.Digits.{digits, value_of};
ghost use Rattle.packed_decimal.specs.PackedReading.{DIGITS as Reading-as-DIGITS, DIGIT_VALUES as Reading-as-DIGIT_VALUES, unpacked, packed, is_decimal};

const DIGITS: usize = 4;

// How many values a decimal digit has, and the four bits that hold it.
const TEN: u64 = 10;

const DIGIT_VALUES: u64 = 16;

// How many whole numbers four decimal digits say.
pub const MODULUS: u64 = TEN * TEN * TEN * TEN;

// Whether none of the word's packed digits is above 9.
pub fn is_decimal(word: u16) -> bool
    ensures { result ≡ is_decimal Reading-as-DIGITS word }
{
    let mut rest = u64::from(word);
    for _digit in 0..DIGITS {
        if TEN <= rest % DIGIT_VALUES {
            return false;
        }
        rest /= DIGIT_VALUES;
    }
    true
}

// The whole number that the word's packed digits say.
pub fn unpack(word: u16) -> u64
    ensures { result ≡ unpacked Reading-as-DIGITS word }
{
    respell(u64::from(word), DIGIT_VALUES, TEN)
}

// The packed digits of a whole number.
pub fn pack(x: u64) -> u16
    ensures { result ≡ packed Reading-as-DIGITS x }
{
    respell(x, TEN, DIGIT_VALUES) as u16
}

// The number that has the last digits of x in base `from` as its digits in base `to`.
fn respell(x: u64, from: u64, to: u64) -> u64
    requires { (0 < from) × (from ≤ Reading-as-DIGIT_VALUES) × (to ≤ Reading-as-DIGIT_VALUES) }
    ensures { result ≡ value_of to (digits from Reading-as-DIGITS x) }
{
    let mut rest = x;
    let mut place = 1;
    let mut result = 0;
    for _digit in 0..DIGITS {
        result += rest % from * place;
        rest /= from;
        place *= to;
    }
    result
}
