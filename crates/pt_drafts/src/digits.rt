//! Numbers as digits.

ghost use Rattle.std.specs.Prelude.{◌≡◌};
ghost use Rattle.pt_drafts.specs.Digits.{decimal_of, digits_at_end};
ghost use Rattle.pt_drafts.specs.inner.Steps.{next_number};

// The number with one digit more, where there is such a digit and the number fits.
fn with_digit(number: u64, digit: u8) -> Option<u64>
    ensures { result ≡ next_number number digit }
{
    if !digit.is_ascii_digit() {
        return None;
    }
    number.checked_mul(10)?.checked_add(u64::from(digit - b'0'))
}

/// The number that decimal digits write, where it fits 64 bits.
pub(crate) fn decimal(digits: &[u8]) -> Option<u64>
    ensures { result ≡ decimal_of digits.now }
{
    if digits.is_empty() {
        return None;
    }
    let mut number = 0;
    for digit in digits {
        number = with_digit(number, *digit)?;
    }
    Some(number)
}

/// The digits that a text ends with.
pub(crate) fn digits_at_end(text: &[u8]) -> &[u8]
    ensures { result.now ≡ digits_at_end text.now }
{
    let mut start = text.len();
    while start > 0 && text[start - 1].is_ascii_digit() {
        start -= 1;
    }
    &text[start..]
}
