//! What a line says of its partition: the name of its type, its own name, and what is set of it.

ghost use Rattle.std.specs.Prelude.{◌≡◌, ◌++◌, IfOk, OnOk, string_bytes, true};
ghost use Rattle.pt_human.specs.Names.{attributes_more, char_shown, entry_more, is_control, is_direction, kind_text, more_text};
ghost use Rattle.pt_human.specs.Names.{entry_kind, name_more, name_text, path_text, record_kind, source_kind, source_more};
ghost use Rattle.pt_report.specs.Shown.{hex, units_of};
ghost use Rattle.pt_guid.specs.Guids.{text_of};

use crate::lines::Item;
use pt_gpt::Entry;
use pt_guid::Guid;
use pt_members::Source;
use pt_report::{first_char, units};
use pt_tables::attribute_words;
use pt_types::{entry_type_name, record_type_name};
use std::alloc::{AllocError, Global};
use std::fmt::Write;

// Characters that no page shows: control characters, and those that end a line.
fn is_control(c: char) -> bool
    ensures { result ≡ is_control c }
{
    c < ' ' || ('\u{7F}'..='\u{9F}').contains(&c) || c == '\u{2028}' || c == '\u{2029}'
}

// Characters that turn the direction of text.
fn is_direction(c: char) -> bool
    ensures { result ≡ is_direction c }
{
    c == '\u{61C}'
        || c == '\u{200E}'
        || c == '\u{200F}'
        || ('\u{202A}'..='\u{202E}').contains(&c)
        || ('\u{2066}'..='\u{2069}').contains(&c)
}

fn shown(found: Option<char>) -> char
    ensures { result ≡ char_shown found }
{
    match found {
        Some(c) if !is_control(c) && !is_direction(c) => c,
        _ => '?',
    }
}

// Adds what is shown for some units of UTF-16.
fn push_name(text: &mut String, name: &[u16]) -> Result<(), AllocError>
    ensures { OnOk result (string_bytes text.new ≡ string_bytes text.old ++ name_text «name».now) }
{
    let mut left = name;
    while !left.is_empty() {
        let (found, behind) = first_char(left);
        text.push(shown(found))?;
        left = behind;
    }
    Ok(())
}

// Adds an entry's name, where it has one.
fn push_name_of(text: &mut String, name: &[u16; 36]) -> Result<(), AllocError>
    ensures { OnOk result (string_bytes text.new ≡ string_bytes text.old ++ name_more (units_of «name».now)) }
{
    let units = units(name);
    if units.is_empty() {
        return Ok(());
    }
    text.push_str("  ")?;
    push_name(text, units)
}

// Adds the words of attributes in brackets, where there are some.
fn push_attributes(alloc: Global, text: &mut String, attributes: u64) -> Result<(), AllocError>
    ensures { OnOk result (string_bytes text.new ≡ string_bytes text.old ++ attributes_more attributes) }
{
    let words = attribute_words(alloc, attributes)?;
    if words.is_empty() {
        return Ok(());
    }
    write!(text, "  [{words}]")
}

fn entry_more(alloc: Global, entry: &Entry) -> Result<String, AllocError>
    ensures { IfOk result (λ text. string_bytes text ≡ entry_more entry.now) }
{
    let mut text = String::new(alloc);
    push_name_of(&mut text, &entry.name)?;
    push_attributes(alloc, &mut text, entry.attributes)?;
    Ok(text)
}

fn source_more(alloc: Global, source: &Source) -> Result<String, AllocError>
    ensures { IfOk result (λ text. string_bytes text ≡ source_more source.now) }
{
    match source {
        Source::Record(record) if record.boot == 0x80 => String::from_str(alloc, "  [boot]"),
        Source::Entry(entry) => entry_more(alloc, entry),
        Source::Record(_) | Source::Part(_) => Ok(String::new(alloc)),
    }
}

/// What stands behind the type: a name, and what is set.
pub(crate) fn more_text(alloc: Global, item: &Item) -> Result<String, AllocError>
    ensures { IfOk result (λ text. string_bytes text ≡ more_text item.now) }
{
    match item {
        Item::Partition(row) => source_more(alloc, &row.source),
        Item::Free(_) => Ok(String::new(alloc)),
    }
}

#[tactic(auto, using(pt_report::proofs::Hex::hex_padded))]
fn number_text(alloc: Global, kind: u8) -> Result<String, AllocError>
    ensures { IfOk result (λ text. string_bytes text ≡ hex true 2 kind) }
{
    format!(in alloc; "{kind:02X}")
}

fn guid_text(alloc: Global, guid: &Guid) -> Result<String, AllocError>
    ensures { IfOk result (λ text. string_bytes text ≡ text_of guid.now.0) }
{
    let mut buffer = [0; 36];
    String::from_str(alloc, guid.to_text(&mut buffer))
}

fn record_kind(alloc: Global, kind: u8) -> Result<String, AllocError>
    ensures { IfOk result (λ text. string_bytes text ≡ record_kind kind) }
{
    match record_type_name(kind) {
        Some(name) => String::from_str(alloc, name),
        None => number_text(alloc, kind),
    }
}

fn entry_kind(alloc: Global, kind: &Guid) -> Result<String, AllocError>
    ensures { IfOk result (λ text. string_bytes text ≡ entry_kind kind.now) }
{
    match entry_type_name(kind) {
        Some(name) => String::from_str(alloc, name),
        None => guid_text(alloc, kind),
    }
}

fn source_kind(alloc: Global, source: &Source) -> Result<String, AllocError>
    ensures { IfOk result (λ text. string_bytes text ≡ source_kind source.now) }
{
    match source {
        Source::Record(record) => record_kind(alloc, record.kind),
        Source::Entry(entry) => entry_kind(alloc, &entry.kind),
        Source::Part(entry) => number_text(alloc, entry.fstype),
    }
}

/// The name of the type, or its number or GUID where it has none.
pub(crate) fn kind_text(alloc: Global, item: &Item) -> Result<String, AllocError>
    ensures { IfOk result (λ text. string_bytes text ≡ kind_text item.now) }
{
    match item {
        Item::Partition(row) => source_kind(alloc, &row.source),
        Item::Free(_) => String::from_str(alloc, "free"),
    }
}

/// The path of a partition, or a hyphen.
pub(crate) fn path_text(alloc: Global, item: &Item) -> Result<String, AllocError>
    ensures { IfOk result (λ text. string_bytes text ≡ path_text item.now) }
{
    match item {
        Item::Partition(row) => format!(in alloc; "{}", row.member.path),
        Item::Free(_) => String::from_str(alloc, "-"),
    }
}
