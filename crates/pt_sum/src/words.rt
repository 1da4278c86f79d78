//! The sum of 16-bit words without carry.

ghost use Rattle.std.specs.Prelude.{◌≡◌, ◌%◌, length};
ghost use Rattle.pt_sum.specs.Sums.{xor_of};

/// The exclusive or of the little-endian 16-bit words.
pub fn xor16(bytes: &[u8]) -> u16
    requires { length bytes.now % 2 ≡ 0 }
    ensures { result ≡ xor_of bytes.now }
{
    let mut sum = 0;
    for i in 0..bytes.len() / 2 {
        sum ^= u16::from_le_bytes([bytes[2 * i], bytes[2 * i + 1]]);
    }
    sum
}
