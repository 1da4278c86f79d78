//! The fields of a word.

ghost use Rattle.std.specs.Prelude.{◌≡◌, ◌≢◌, ◌≤◌, ℕ, List, IfOk, IfErr, IfSome, IfNone, [], ◌∷◌, Ok, Err};
ghost use Rattle.std.specs.Option.{option_map};
ghost use Rattle.pt_words.specs.Words.{fields, greatest, number_in, path_in, new_path_in, end_in, code_in, guid_in};
ghost use Rattle.pt_words.specs.Words.{one_of, two_of, three_of};
ghost use Rattle.pt_words.specs.inner.Words.{fields_after};

use crate::error::EditError;
use crate::word::{Code, End};
use pt_guid::Guid;
use pt_path::{Path, parse_number, parse_path};

// The text before the first colon and the text after it.
pub(crate) fn cut(text: &str) -> Option<(&str, &str)>
    ensures some { IfSome result (λ r. fields text.now ≡ r.0.now ∷ fields r.1.now) }
    ensures none { IfNone result (fields text.now ≡ text.now ∷ []) }
{
    text.split_once(':')
}

// The first of the fields that are left, and the fields after it.
pub(crate) fn next_field<'a>(rest: Option<&'a str>) -> Option<(&'a str, Option<&'a str>)>
    ensures some { IfSome result (λ r.
        fields_after (option_map (λ t. t.now) rest.entry) ≡ r.0.now ∷ fields_after (option_map (λ t. t.now) r.1)) }
    ensures none { IfNone result (fields_after (option_map (λ t. t.now) rest.entry) ≡ []) }
{
    match rest {
        Some(text) => match cut(text) {
            Some((first, rest)) => Some((first, Some(rest))),
            None => Some((text, None)),
        },
        None => None,
    }
}

// The only field.
#[tactic(auto, using(crate::proofs::Cuts::two_at_least))]
pub(crate) fn one_field<'a>(rest: Option<&'a str>) -> Result<&'a str, EditError>
    ensures ok { IfOk result (λ f. one_of (fields_after (option_map (λ t. t.now) rest.entry)) ≡ Ok f.now) }
    ensures err { IfErr result (λ e. one_of (fields_after (option_map (λ t. t.now) rest.entry)) ≡ Err e) }
{
    match next_field(rest) {
        Some((first, rest)) => match rest {
            None => Ok(first),
            Some(_) => Err(EditError::FieldCount),
        },
        None => Err(EditError::FieldCount),
    }
}

// Both fields, where there are two.
pub(crate) fn two_fields<'a>(rest: Option<&'a str>) -> Result<(&'a str, &'a str), EditError>
    ensures ok { IfOk result (λ f. two_of (fields_after (option_map (λ t. t.now) rest.entry)) ≡ Ok (f.0.now, f.1.now)) }
    ensures err { IfErr result (λ e. two_of (fields_after (option_map (λ t. t.now) rest.entry)) ≡ Err e) }
{
    match next_field(rest) {
        Some((first, rest)) => Ok((first, one_field(rest)?)),
        None => Err(EditError::FieldCount),
    }
}

// All three fields, where there are so many.
pub(crate) fn three_fields<'a>(
    rest: Option<&'a str>,
) -> Result<(&'a str, &'a str, &'a str), EditError>
    ensures ok { IfOk result (λ f. three_of (fields_after (option_map (λ t. t.now) rest.entry)) ≡ Ok (f.0.now, f.1.now, f.2.now)) }
    ensures err { IfErr result (λ e. three_of (fields_after (option_map (λ t. t.now) rest.entry)) ≡ Err e) }
{
    match next_field(rest) {
        Some((first, rest)) => {
            let (second, third) = two_fields(rest)?;
            Ok((first, second, third))
        }
        None => Err(EditError::FieldCount),
    }
}

// A number in a range.
#[tactic(auto, using(crate::proofs::Values::in_range, crate::proofs::Values::too_low, crate::proofs::Values::too_high))]
pub(crate) fn number_in(text: &str, low: u64, high: u64) -> Result<u64, EditError>
    ensures value { result ≡ number_in low high text.now }
    ensures high { IfOk result (λ number. number ≤ high) }
{
    let found = match parse_number(text) {
        Some(found) => found,
        None => return Err(EditError::NotANumber),
    };
    if found < low {
        return Err(EditError::NotANumber);
    }
    if high < found {
        return Err(EditError::NotANumber);
    }
    Ok(found)
}

// The number of an entry.
pub(crate) fn entry_number(text: &str) -> Result<u64, EditError>
    ensures { result ≡ number_in 1 greatest text.now }
{
    number_in(text, 1, u64::MAX)
}

// A path.
#[tactic(auto, using(crate::proofs::Values::read_path, crate::proofs::Values::unread_path))]
pub(crate) fn path_field(text: &str) -> Result<Path, EditError>
    ensures { result ≡ path_in text.now }
{
    match parse_path(text) {
        Some(path) => Ok(path),
        None => Err(EditError::NotANumber),
    }
}

// The number of a new partition.
#[tactic(auto, unfolding(crate::specs::Words::new_path_in))]
pub(crate) fn new_path_field(text: &str) -> Result<Path, EditError>
    ensures { result ≡ new_path_in text.now }
{
    if text == "0" {
        return Ok(Path {
            number: 0,
            letter: None,
        });
    }
    path_field(text)
}

// What stands behind a plus in front.
fn after_plus(text: &str) -> Option<&str>
    ensures some { IfSome result (λ digits. text.now ≡ 43 ∷ digits.now) }
    ensures none { IfNone result ((digits : List ℕ) → text.now ≢ 43 ∷ digits) }
{
    text.strip_prefix('+')
}

// Where a new partition ends.
#[tactic(auto, using(crate::proofs::Values::no_plus), unfolding(crate::specs::Words::end_in))]
pub(crate) fn end_field(text: &str) -> Result<End, EditError>
    ensures { result ≡ end_in text.now }
{
    if text == "0" {
        return Ok(End::Block);
    }
    match after_plus(text) {
        Some(digits) => Ok(End::Length(number_in(digits, 1, u64::MAX)?)),
        None => Ok(End::At(number_in(text, 1, u64::MAX)?)),
    }
}

// A type's code.
#[tactic(auto, unfolding(crate::specs::Words::code_in))]
pub(crate) fn code_field(text: &str) -> Result<Code, EditError>
    ensures { result ≡ code_in text.now }
{
    // The parser also takes a plus in front.
    match text.as_bytes() {
        [b'+', ..] => Err(EditError::NotACode),
        [_, _] => match u8::from_str_radix(text, 16) {
            Ok(digits) => Ok(Code::Two(digits)),
            Err(_) => Err(EditError::NotACode),
        },
        [_, _, _, _] => match u16::from_str_radix(text, 16) {
            Ok(digits) => Ok(Code::Four(digits)),
            Err(_) => Err(EditError::NotACode),
        },
        _ => Err(EditError::NotACode),
    }
}

// A GUID.
#[tactic(auto, unfolding(crate::specs::Words::guid_in))]
pub(crate) fn guid_field(text: &str) -> Result<Guid, EditError>
    ensures { result ≡ guid_in text.now }
{
    match pt_guid::parse(text) {
        Ok(guid) => Ok(guid),
        Err(_) => Err(EditError::NotAGuid),
    }
}
