// 64 by 64 bits, turned in six rounds: half blocks that stand across are exchanged, the largest first.
ghost use Rattle.std.specs.Prelude.{◌≡◌, ◌*◌, ◌/◌, ◌%◌, ◌^◌, ◌<◌};
ghost use Rattle.atoms.specs.Word.{ATOMS as Word-as-ATOMS, ◌∩◌, ◌∪◌, ◌∖◌};
ghost use Rattle.relay_rows.specs.Columns.{FilledColumns};
ghost use Rattle.relay_rows.specs.Exchange.{exchanged_word, Exchangeable, RoundTakes, Crossed};

use atoms::{ATOMS, are_apart, cut, single, union, without};

// Bit c of word k becomes bit k of word c.
pub fn turn(block: [u64; ATOMS]) -> [u64; ATOMS]
    ensures { Crossed block result }
{
    let mut one = block;
    let mut other = [0u64; ATOMS];
    exchange(&one, 5, 0x0000_0000_ffff_ffff, &mut other);
    exchange(&other, 4, 0x0000_ffff_0000_ffff, &mut one);
    exchange(&one, 3, 0x00ff_00ff_00ff_00ff, &mut other);
    exchange(&other, 2, 0x0f0f_0f0f_0f0f_0f0f, &mut one);
    exchange(&one, 1, 0x3333_3333_3333_3333, &mut other);
    exchange(&other, 0, 0x5555_5555_5555_5555, &mut one);
    one
}

// One round: half blocks of 2^e words and bits, whose places the mask tells apart.
fn exchange(block: &[u64], e: usize, mask: u64, exchanged: &mut [u64])
    requires { RoundTakes block.now exchanged.old e mask }
    ensures { FilledColumns (exchanged_word e block.now) exchanged.old exchanged.new Word-as-ATOMS }
{
    for k in 0..ATOMS {
        exchanged[k] = exchanged_row(block, k, e, mask);
    }
}

// One word of a round.
fn exchanged_row(block: &[u64], k: usize, e: usize, mask: u64) -> u64
    requires { Exchangeable block.now k e mask }
    ensures { result ≡ exchanged_word e block.now k }
{
    let half = single(e);
    let place = k as u64;
    if are_apart(place, half) {
        let across = union(place, half) as usize;
        return low_row(block[k], block[across], half, mask);
    }
    let across = without(place, half) as usize;
    high_row(block[across], block[k], half, mask)
}

fn low_row(low: u64, high: u64, half: u64, mask: u64) -> u64
    requires { half < Word-as-ATOMS }
    ensures { result ≡ (low ∩ mask) ∪ ((high ∩ mask) * 2 ^ half % 2 ^ 64) }
{
    union(cut(low, mask), cut(high, mask) << half)
}

fn high_row(low: u64, high: u64, half: u64, mask: u64) -> u64
    requires { half < Word-as-ATOMS }
    ensures { result ≡ ((low / 2 ^ half) ∩ mask) ∪ (high ∖ mask) }
{
    union(cut(low >> half, mask), without(high, mask))
}
