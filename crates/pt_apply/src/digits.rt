//! Bytes in hexadecimal digits.
//!
//! Where `hex::decode_to_slice` stops at the first bad digit and tells of it, here all are looked at and the worst is kept: so there
//! is no branch for a digit, and many are done at once.

ghost use Rattle.std.specs.Prelude.{◌≡◌, ◌≢◌, ◌<◌, ◌≤◌, ◌↔◌, ℕ, List, length, IsTrue, Ok};
ghost use Rattle.hex.specs.Hex.{decode_sized, hex_digit_value};
ghost use Rattle.std.specs.Prelude.{Some, None};

// A number that is the value of no digit.
const NO_DIGIT: u8 = 16;

// The value of a digit, in either case.
fn value_of(digit: u8) -> u8
    ensures some { result < 16 → hex_digit_value digit ≡ Some result }
    ensures none { 16 ≤ result → hex_digit_value digit ≡ None }
{
    match digit {
        b'0'..=b'9' => digit - b'0',
        b'a'..=b'f' => digit - b'a' + 10,
        b'A'..=b'F' => digit - b'A' + 10,
        _ => NO_DIGIT,
    }
}

/// Puts the bytes of some digits into a slice, and says whether the digits are those of so many bytes. Where they aren't, what the
/// slice holds then is open.
pub(crate) fn decode_digits(digits: &[u8], bytes: &mut [u8]) -> bool
    ensures yes { IsTrue result → decode_sized digits.now (length bytes.old) ≡ Ok bytes.new }
    ensures no { (b : List ℕ) → decode_sized digits.now (length bytes.old) ≡ Ok b → IsTrue result }
{
    let count = bytes.len();
    if digits.len() % 2 != 0 || digits.len() / 2 != count {
        return false;
    }
    let mut worst = 0;
    for k in 0..count {
        let high = value_of(digits[2 * k]);
        let low = value_of(digits[2 * k + 1]);
        bytes[k] = high.wrapping_mul(16).wrapping_add(low);
        worst = worst.max(high).max(low);
    }
    worst < NO_DIGIT
}
