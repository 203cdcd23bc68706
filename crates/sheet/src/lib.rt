// The sheet that `settle` prints (document 01, "The sheet it prints"), written into a lent buffer.
#![tactic(auto)]

ghost use Rattle.std.specs.Prelude.{◌+◌, ◌*◌, ◌≤◌, ◌≡◌, length, take};
ghost use Rattle.sheet.specs.Sheet.{decimal, hexadecimal, line_length, position_line, position_lines, positions_sheet, refusal_sheet};
ghost use Rattle.sheet.specs.LentSheet.{Put, bytes_written, filled};

// Why nothing is written: the buffer is too short for the sheet, which leaves it as it was.
#[derive(Clone, Copy)]
pub struct TooShort;

// Hexadecimal digits of a position: 64 bits, four to a digit.
const HEX_DIGITS: usize = 64 / 4;

// Decimal digits of the greatest number.
const MAX_DECIMAL: usize = 20;

// Bytes of a position's line: its digits and the line end.
pub const LINE: usize = HEX_DIGITS + 1;

// Bytes of the first line beside the count: its word, the space and the line end.
pub const POSITIONS_FRAME: usize = 11;

// Bytes of a refusal beside its two numbers.
const REFUSAL_FRAME: usize = 13;

// Writes the sheet of the first `count` of the words, or of all where there are fewer, and returns how many bytes it has.
pub fn write_positions(words: &[u64], count: usize, sheet: &mut [u8]) -> Result<usize, TooShort>
    ensures value { result ≡ bytes_written (positions_sheet (take count words.now)) sheet.old }
    ensures sheet_after { sheet.new ≡ filled (positions_sheet (take count words.now)) sheet.old }
{
    write_words(&words[..count.min(words.len())], sheet)
}

// Writes the sheet of a refusal, and returns how many bytes it has.
pub fn write_refusal(number: u64, spot: u64, sheet: &mut [u8]) -> Result<usize, TooShort>
    ensures value { result ≡ bytes_written (refusal_sheet number spot) sheet.old }
    ensures sheet_after { sheet.new ≡ filled (refusal_sheet number spot) sheet.old }
{
    if sheet.len() < decimal_length(number) + decimal_length(spot) + REFUSAL_FRAME {
        return Err(TooShort);
    }
    let number_at = put(b"refused ", 0, sheet);
    let word_at = put_decimal(number, number_at, sheet);
    let spot_at = put(b" at ", word_at, sheet);
    let end_at = put_decimal(spot, spot_at, sheet);
    Ok(put(b"\n", end_at, sheet))
}

// Writes the sheet of all the words.
fn write_words(words: &[u64], sheet: &mut [u8]) -> Result<usize, TooShort>
    ensures value { result ≡ bytes_written (positions_sheet words.now) sheet.old }
    ensures sheet_after { sheet.new ≡ filled (positions_sheet words.now) sheet.old }
{
    let count = words.len();
    let head = decimal_length(count as u64) + POSITIONS_FRAME;
    if sheet.len() < head {
        return Err(TooShort);
    }
    // Divides, since LINE * count may wrap.
    if (sheet.len() - head) / LINE < count {
        return Err(TooShort);
    }
    let count_at = put(b"positions ", 0, sheet);
    let end_at = put_decimal(count as u64, count_at, sheet);
    let lines_at = put(b"\n", end_at, sheet);
    Ok(put_lines(words, lines_at, sheet))
}

// How many decimal digits n has.
fn decimal_length(n: u64) -> usize
    ensures { (result ≡ length (decimal n)) × (result ≤ 20) }
{
    let mut text = [0u8; MAX_DECIMAL];
    io::decimal(n, &mut text)
}

// Writes a line for each word, in their order, and returns the place behind the last.
fn put_lines(words: &[u64], at: usize, sheet: &mut [u8]) -> usize
    requires { at + line_length * length words.now ≤ length sheet.old }
    ensures { Put (position_lines words.now) at sheet.old sheet.new result }
{
    let mut next = at;
    for &word in words {
        next = put_line(word, next, sheet);
    }
    next
}

// Writes the line of one position.
fn put_line(word: u64, at: usize, sheet: &mut [u8]) -> usize
    requires { at + line_length ≤ length sheet.old }
    ensures { Put (position_line word) at sheet.old sheet.new result }
{
    let end_at = put_hexadecimal(word, at, sheet);
    put(b"\n", end_at, sheet)
}

// Writes the sixteen digits of a position.
fn put_hexadecimal(word: u64, at: usize, sheet: &mut [u8]) -> usize
    requires { at + length (hexadecimal word) ≤ length sheet.old }
    ensures { Put (hexadecimal word) at sheet.old sheet.new result }
{
    let mut text = [0u8; HEX_DIGITS];
    let digits = io::hex(word, HEX_DIGITS, &mut text);
    put(&text[..digits], at, sheet)
}

// Writes n in decimal.
fn put_decimal(n: u64, at: usize, sheet: &mut [u8]) -> usize
    requires { at + length (decimal n) ≤ length sheet.old }
    ensures { Put (decimal n) at sheet.old sheet.new result }
{
    let mut text = [0u8; MAX_DECIMAL];
    let digits = io::decimal(n, &mut text);
    put(&text[..digits], at, sheet)
}

// Copies the bytes into the sheet from `at` on, and returns the place behind them: every byte of a sheet comes by here.
fn put(bytes: &[u8], at: usize, sheet: &mut [u8]) -> usize
    requires { at + length bytes.now ≤ length sheet.old }
    ensures { Put bytes.now at sheet.old sheet.new result }
{
    let end = at + bytes.len();
    sheet[at..end].copy_from_slice(bytes);
    end
}
