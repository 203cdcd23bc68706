// A word of a plan: 64 bits, lowest byte first.
ghost use Rattle.std.specs.Prelude.{◌≡◌, ◌+◌, ◌≤◌, length};
ghost use Rattle.reading.specs.Words.{word_at, WORD_BYTES as Words-as-WORD_BYTES};

pub const WORD_BYTES: usize = 8;

// The word that starts at byte `at`, lowest byte first.
pub fn read_word(operands: &[u8], at: usize) -> u64
    requires { at + Words-as-WORD_BYTES ≤ length operands.now }
    ensures { result ≡ word_at at operands.now }
{
    let mut bytes = [0; WORD_BYTES];
    bytes.copy_from_slice(&operands[at..at + WORD_BYTES]);
    u64::from_le_bytes(bytes)
}
