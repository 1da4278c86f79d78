//! Numbers and paths as texts.

ghost use Rattle.std.specs.Prelude.{◌≡◌, ◌≢◌, ◌<◌, ◌+◌, ℕ, IfSome, IfNone, [], ◌∷◌, ◌↔◌, IsTrue};
ghost use Rattle.pt_path.specs.Paths.{IsNumber, IsPath};
ghost use Rattle.pt_path.specs.inner.Paths.{IsPlainText, IsUndotted, IsDotted};
ghost use Rattle.pt_path.specs.declared.path.Path.{Path};

use crate::path::Path;

// Whether a text has neither a plus nor, before more, a zero in front, which the parser takes.
fn is_plain(text: &str) -> bool
    ensures { IsTrue result ↔ IsPlainText text.now }
{
    let bytes = text.as_bytes();
    if bytes.is_empty() {
        return true;
    }
    bytes[0] != b'+' && (bytes[0] != b'0' || bytes.len() == 1)
}

/// The number of at most 64 bits that a text is, in decimal digits without a zero in front; 0 is one.
pub fn parse_number(text: &str) -> Option<u64>
    ensures some { IfSome result (IsNumber text.now) }
    ensures none { IfNone result ((n : ℕ) → ¬ IsNumber text.now n) }
{
    if !is_plain(text) {
        return None;
    }
    match u64::from_str_radix(text, 10) {
        Ok(number) => Some(number),
        Err(_) => None,
    }
}

// The letter of a path that stands behind the dot.
fn parse_letter(text: &str) -> Option<u8>
    ensures some { IfSome result (λ letter. (letter < 8) × (text.now ≡ (97 + letter) ∷ [])) }
    ensures none { IfNone result ((letter : ℕ) → letter < 8 → text.now ≢ (97 + letter) ∷ []) }
{
    match text.as_bytes() {
        [letter @ b'a'..=b'h'] => Some(*letter - b'a'),
        _ => None,
    }
}

// The path of a text without a dot.
fn undotted(digits: &str) -> Option<Path>
    ensures some { IfSome result (IsUndotted digits.now) }
    ensures none { IfNone result ((p : Path) → ¬ IsUndotted digits.now p) }
{
    let number = parse_number(digits)?;
    if number == 0 {
        return None;
    }
    Some(Path {
        number,
        letter: None,
    })
}

// The path of the texts before the first dot and behind it.
fn dotted(digits: &str, letter: &str) -> Option<Path>
    ensures some { IfSome result (IsDotted digits.now letter.now) }
    ensures none { IfNone result ((p : Path) → ¬ IsDotted digits.now letter.now p) }
{
    let letter = parse_letter(letter)?;
    let path = undotted(digits)?;
    Some(Path {
        number: path.number,
        letter: Some(letter),
    })
}

/// The path that a text is: a number from 1 on in decimal digits without a zero in front, alone or with a dot and a letter
/// from `a` to `h` behind it, as `3`, `5` or `2.a`.
pub fn parse_path(text: &str) -> Option<Path>
    ensures some { IfSome result (IsPath text.now) }
    ensures none { IfNone result ((p : Path) → ¬ IsPath text.now p) }
{
    match text.split_once('.') {
        Some((digits, letter)) => dotted(digits, letter),
        None => undotted(text),
    }
}
