//! The difference of two sums, moved by zero bits.

ghost use Rattle.std.specs.Prelude.{◌≡◌, ◌<◌, ◌*◌, ◌^◌, ◌++◌, ℕ, List, length, bit_xor};
ghost use Rattle.pt_sum.specs.Sums.{crc_of};
ghost use Rattle.pt_sum.specs.inner.Sums.{moved};

use crate::steps::STEPS;

// The register after `1024 * 2 ^ j` moves: each of its bits moves alone. A column is taken once or not at all by a product, since a
// branch for each bit would be guessed wrong half of the time.
fn after_step(j: usize, register: u32) -> u32
    requires { j < 7 }
    ensures { result ≡ moved (1024 * 2 ^ j) register }
{
    let mut sum = 0;
    for i in 0..32 {
        sum ^= STEPS[j][i] * ((register >> i) & 1);
    }
    sum
}

// The register after `behind` times 1024 moves.
fn moved_behind(register: u32, behind: u32) -> u32
    requires { behind < 128 }
    ensures { result ≡ moved (1024 * behind) register }
{
    let mut sum = register;
    for j in 0..7 {
        if (behind >> j) & 1 == 1 {
            sum = after_step(j, sum);
        }
    }
    sum
}

/// The CRC-32 of bytes after a part of them changed. `sum` is that of all before, `before` and `now` are those of the part alone, and
/// behind the part stand `behind` times 128 bytes, less than 16,384.
pub fn sum_after_change(sum: u32, before: u32, now: u32, behind: u32) -> u32
    requires { behind < 128 }
    ensures { (p x y s : List ℕ) → length x ≡ length y → length s ≡ 128 * behind → sum ≡ crc_of (p ++ (x ++ s)) → before ≡ crc_of x
        → now ≡ crc_of y → result ≡ crc_of (p ++ (y ++ s)) }
{
    sum ^ moved_behind(before ^ now, behind)
}

/// The CRC-32 of two byte strings joined, from the sum of each. The second has `behind` times 128 bytes, less than 16,384.
pub fn sum_of_both(first: u32, second: u32, behind: u32) -> u32
    requires { behind < 128 }
    ensures { (a b : List ℕ) → length b ≡ 128 * behind → first ≡ crc_of a → second ≡ crc_of b → result ≡ crc_of (a ++ b) }
{
    second ^ moved_behind(first, behind)
}
