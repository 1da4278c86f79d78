//! What a text names, and the name of a type.

ghost use Rattle.std.specs.Prelude.{◌≡◌};
ghost use Rattle.std.specs.Option.{option_map};
ghost use Rattle.pt_types.specs.Types.{code_of, number_of, entry_row, entry_for, stored_by, entry_type_of, entry_name_of};
ghost use Rattle.pt_types.specs.Types.{record_type_of, record_name_of};

use crate::entries::EntryType;
use crate::lookup::{Sought, first_entry, record_named, record_numbered};
use pt_guid::Guid;

// The number that four hexadecimal digits write.
fn code_in(text: &str) -> Option<u16>
    ensures { result ≡ code_of text.now }
{
    // The parser also takes a plus in front.
    match text.as_bytes() {
        [b'+', ..] => None,
        [_, _, _, _] => u16::from_str_radix(text, 16).ok(),
        _ => None,
    }
}

// The number that one hexadecimal digit or two write.
fn number_in(text: &str) -> Option<u8>
    ensures { result ≡ number_of text.now }
{
    match text.as_bytes() {
        [b'+', ..] => None,
        [_] | [_, _] => u8::from_str_radix(text, 16).ok(),
        _ => None,
    }
}

fn guid_of(row: Option<EntryType>) -> Option<Guid>
    ensures { option_map (λ guid. guid.0) result ≡ stored_by (option_map entry_row row) }
{
    match row {
        Some(row) => pt_guid::parse(row.guid).ok(),
        None => None,
    }
}

// The row of a text that is no GUID's.
fn row_for(text: &str) -> Option<EntryType>
    ensures { option_map entry_row result ≡ entry_for (code_of text.now) text.now }
{
    match code_in(text) {
        Some(code) => first_entry(&Sought::Code(code)),
        None => first_entry(&Sought::Name(text)),
    }
}

/// The partition type that a text names on a GPT: a GUID's text, or else a code of four hexadecimal digits that the table has, or
/// else a name. Digits may be of either case, and a name is in lower case.
pub fn entry_type(text: &str) -> Option<Guid>
    ensures { option_map (λ guid. guid.0) result ≡ entry_type_of text.now }
{
    match pt_guid::parse(text) {
        Ok(guid) => Some(guid),
        Err(_) => guid_of(row_for(text)),
    }
}

/// The name that is printed for a partition type of a GPT, where it has one.
pub fn entry_type_name(guid: &Guid) -> Option<&'static str>
    ensures { option_map (λ name. name.now) result ≡ entry_name_of guid.now.0 }
{
    let mut text = [0; 36];
    match first_entry(&Sought::Guid(guid.to_text(&mut text))) {
        Some(row) => Some(row.name),
        None => None,
    }
}

/// The partition type (OSType) that a text names on an MBR: one hexadecimal digit or two of either case, but neither 00, which is
/// an unused record, nor EE, which is a protective one; or else a name.
pub fn record_type(text: &str) -> Option<u8>
    ensures { result ≡ record_type_of text.now }
{
    match number_in(text) {
        Some(0 | 0xEE) => None,
        Some(kind) => Some(kind),
        None => match record_named(text) {
            Some(row) => Some(row.kind),
            None => None,
        },
    }
}

/// The name that is printed for a partition type of an MBR, where it has one.
pub fn record_type_name(kind: u8) -> Option<&'static str>
    ensures { option_map (λ name. name.now) result ≡ record_name_of kind }
{
    match record_numbered(kind) {
        Some(row) => Some(row.name),
        None => None,
    }
}
