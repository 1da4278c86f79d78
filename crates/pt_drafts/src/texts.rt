//! What texts stand for.

ghost use Rattle.std.specs.Prelude.{◌≡◌, Some};
ghost use Rattle.std.specs.Char.{is_ascii_hexdigit};
ghost use Rattle.std.specs.List.{list_all};
ghost use Rattle.std.specs.Option.{option_map};
ghost use Rattle.pt_drafts.specs.Pieces.{behind, in_front_of};
ghost use Rattle.pt_drafts.specs.Texts.{are_hex_digits, by_text, bytes_of, count_of, disk_of, entry_kind, extent_of, guid_of};
ghost use Rattle.pt_drafts.specs.Texts.{is_signature, kind_of, named_of, node_number, record_kind, scaled};

use crate::digits::{decimal, digits_at_end};
use crate::draft::{DiskId, Extent, NamedType, TableKind};
use crate::values::Stands;
use pt_guid::Guid;
use serde_json::Value;

/// What stands behind a beginning, where the text has it.
pub(crate) fn behind<'t>(text: &'t [u8], start: &[u8]) -> Option<&'t [u8]>
    ensures { option_map (λ t. t.now) result ≡ behind start.now text.now }
{
    text.strip_prefix(start)
}

/// What stands in front of an end, where the text has it.
pub(crate) fn in_front_of<'t>(text: &'t [u8], end: &[u8]) -> Option<&'t [u8]>
    ensures { option_map (λ t. t.now) result ≡ in_front_of end.now text.now }
{
    text.strip_suffix(end)
}

impl Stands for TableKind {
    type Out = TableKind;

    ghost stands_for = { by_text kind_of };

    fn read(value: &Value) -> Option<TableKind> {
        let text = value.as_str()?;
        if text == "gpt" {
            Some(TableKind::Gpt)
        } else if text == "dos" {
            Some(TableKind::Mbr)
        } else {
            None
        }
    }
}

// The GUID of a text.
#[tactic(auto, unfolding(crate::specs::Texts::guid_of))]
fn guid(text: &str) -> Option<Guid>
    ensures { result ≡ guid_of text.now }
{
    pt_guid::parse(text).ok()
}

impl Stands for Guid {
    type Out = Guid;

    ghost stands_for = { by_text guid_of };

    fn read(value: &Value) -> Option<Guid> {
        guid(value.as_str()?)
    }
}

fn all_hex(text: &[u8]) -> bool
    ensures { result ≡ list_all is_ascii_hexdigit text.now }
{
    for digit in text {
        if !digit.is_ascii_hexdigit() {
            return false;
        }
    }
    true
}

fn are_hex_digits(text: &[u8]) -> bool
    ensures { result ≡ are_hex_digits text.now }
{
    1 <= text.len() && text.len() <= 8 && all_hex(text)
}

#[tactic(auto, unfolding(crate::specs::Texts::is_signature))]
fn is_signature(text: &str) -> bool
    ensures { result ≡ is_signature text.now }
{
    match behind(text.as_bytes(), b"0x") {
        Some(digits) => are_hex_digits(digits),
        None => false,
    }
}

fn disk(text: &str) -> Option<DiskId>
    ensures { result ≡ disk_of text.now }
{
    if is_signature(text) {
        return Some(DiskId::Signature);
    }
    Some(DiskId::Guid(guid(text)?))
}

impl Stands for DiskId {
    type Out = DiskId;

    ghost stands_for = { by_text disk_of };

    fn read(value: &Value) -> Option<DiskId> {
        disk(value.as_str()?)
    }
}

// The type that a text names on a GPT.
#[tactic(auto, unfolding(crate::specs::Texts::entry_kind))]
fn entry_kind(text: &str) -> Option<Guid>
    ensures { result ≡ entry_kind text.now }
{
    pt_types::entry_type(text)
}

// The type that a text names on an MBR.
#[tactic(auto, unfolding(crate::specs::Texts::record_kind))]
fn record_kind(text: &str) -> Option<u8>
    ensures { result ≡ record_kind text.now }
{
    pt_types::record_type(text)
}

fn named(text: &str) -> Option<NamedType>
    ensures { result ≡ named_of text.now }
{
    let gpt = entry_kind(text);
    let mbr = record_kind(text);
    if gpt.is_some() || mbr.is_some() {
        return Some(NamedType { gpt, mbr });
    }
    None
}

impl Stands for NamedType {
    type Out = NamedType;

    ghost stands_for = { by_text named_of };

    fn read(value: &Value) -> Option<NamedType> {
        named(value.as_str()?)
    }
}

// The bytes of a size in this unit.
fn scaled(text: &[u8], unit: &[u8], bytes: u64) -> Option<u64>
    ensures { result ≡ scaled unit.now bytes text.now }
{
    decimal(in_front_of(text, unit)?)?.checked_mul(bytes)
}

// The bytes of a size.
#[tactic(auto, unfolding(crate::specs::Texts::bytes_of))]
fn byte_size(text: &str) -> Option<u64>
    ensures { result ≡ bytes_of text.now }
{
    let text = text.as_bytes();
    let large = scaled(text, b"GiB", 1 << 30).or(scaled(text, b"TiB", 1 << 40));
    scaled(text, b"KiB", 1 << 10).or(scaled(text, b"MiB", 1 << 20).or(large))
}

impl Stands for Extent {
    type Out = Extent;

    ghost stands_for = { extent_of };

    fn read(value: &Value) -> Option<Extent> {
        match value.as_u64() {
            Some(sectors) => Some(Extent::Sectors(sectors)),
            None => Some(Extent::Bytes(byte_size(value.as_str()?)?)),
        }
    }
}

/// A number, or a text of digits.
pub(crate) enum Count {}

impl Stands for Count {
    type Out = u64;

    ghost stands_for = { count_of };

    fn read(value: &Value) -> Option<u64> {
        match value.as_u64() {
            Some(number) => Some(number),
            None => decimal(value.as_str()?.as_bytes()),
        }
    }
}

/// A device's name, by the number at its end.
pub(crate) enum Node {}

impl Stands for Node {
    type Out = Option<u64>;

    ghost stands_for = { by_text (λ text. Some (node_number text)) };

    fn read(value: &Value) -> Option<Option<u64>> {
        let digits = digits_at_end(value.as_str()?.as_bytes());
        Some(decimal(digits))
    }
}
