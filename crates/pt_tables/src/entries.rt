//! The entries of a GPT as JSON.

ghost use Rattle.std.specs.Prelude.{◌≡◌, ◌∷◌, ◌++◌, [], IfOk, OnOk};
ghost use Rattle.uuid.specs.Text.{hyphenated_text, upper};
ghost use Rattle.serde_json.specs.Data.{put, string};
ghost use Rattle.serde_json.specs.View.{view};
ghost use Rattle.pt_guid.specs.Guids.{mixed};
ghost use Rattle.pt_tables.specs.Fields.{array_of, end_field, object_of, with_fields};
ghost use Rattle.pt_tables.specs.Entries.{entries_data, entry_data, entry_fields, entry_kind_fields, guid_text};
ghost use Rattle.pt_tables.specs.inner.Objects.{members_in, values_in};

use crate::attributes::put_attributes;
use crate::labels::put_label;
use crate::names::{node, put_name, put_type_name};
use crate::object::{Array, Object};
use pt_bsd::Label;
use pt_gpt::Entry;
use pt_guid::Guid;
use pt_members::{Labels, find_label, is_slice_type};
use pt_types::entry_type_name;
use serde_json::Value;
use std::alloc::{AllocError, Global};
use uuid::Uuid;
use uuid::fmt::Hyphenated;

// The bytes of a GUID in the order of its text.
fn in_text_order(stored: &[u8; 16]) -> Hyphenated
    ensures { result ≡ mixed stored.now }
{
    Uuid::from_bytes_le(*stored).hyphenated()
}

// The text of bytes in its order.
fn write_text<'b>(bytes: &Hyphenated, buffer: &'b mut [u8; 36]) -> &'b str
    ensures { result.now ≡ hyphenated_text upper bytes.now }
{
    bytes.encode_upper(buffer)
}

/// Puts a GUID.
pub(crate) fn put_guid(
    alloc: Global,
    object: &mut Object,
    name: &str,
    guid: &Guid,
) -> Result<(), AllocError>
    ensures { OnOk result (members_in object.new ≡ put name.now (string (guid_text guid.now)) (members_in object.old)) }
{
    let mut buffer = [0; 36];
    let bytes = in_text_order(&guid.0);
    object.put_text(alloc, name, write_text(&bytes, &mut buffer))
}

/// Puts how many sectors there are from the first to the last, or the last one.
pub(crate) fn put_end(
    alloc: Global,
    object: &mut Object,
    first: u64,
    last: u64,
) -> Result<(), AllocError>
    ensures { OnOk result (members_in object.new ≡ with_fields (end_field first last ∷ []) (members_in object.old)) }
{
    if first <= last && last - first < u64::MAX {
        return object.put_number(alloc, "size", last - first + 1);
    }
    object.put_number(alloc, "last", last)
}

// Puts what an entry says but for its number and its place.
#[tactic(auto, using(crate::proofs::Puts::with_more), unfolding(crate::specs::Entries::entry_kind_fields))]
fn put_kind(
    alloc: Global,
    object: &mut Object,
    entry: &Entry,
    label: &Option<Label>,
) -> Result<(), AllocError>
    ensures { OnOk result (members_in object.new ≡ with_fields (entry_kind_fields entry.now label.now) (members_in object.old)) }
{
    put_guid(alloc, object, "type", &entry.kind)?;
    put_guid(alloc, object, "uuid", &entry.unique)?;
    put_type_name(alloc, object, entry_type_name(&entry.kind))?;
    put_name(alloc, object, &entry.name)?;
    put_attributes(alloc, object, entry.attributes)?;
    put_label(alloc, object, is_slice_type(&entry.kind), label)
}

fn entry_value(
    alloc: Global,
    device: &str,
    number: u64,
    entry: &Entry,
    label: &Option<Label>,
) -> Result<Value, AllocError>
    ensures { IfOk result (λ v. view v ≡ object_of (entry_fields device.now number entry.now label.now)) }
{
    let node = node(alloc, device, number)?;
    let mut object = Object::new(alloc);
    object.put_number(alloc, "number", number)?;
    object.put(alloc, "node", Value::String(node))?;
    object.put_number(alloc, "start", entry.first)?;
    put_end(alloc, &mut object, entry.first, entry.last)?;
    put_kind(alloc, &mut object, entry, label)?;
    Ok(object.into_value())
}

// Adds what stands in a place of a table, where it is used.
fn push_entry(
    alloc: Global,
    list: &mut Array,
    device: &str,
    labels: &Labels,
    number: u64,
    entry: &Option<Entry>,
) -> Result<(), AllocError>
    ensures { OnOk result (values_in list.new ≡ values_in list.old ++ entry_data device.now labels.now number entry.now) }
{
    if let Some(entry) = entry {
        let label = find_label(labels, number);
        list.push(entry_value(alloc, device, number, entry, &label)?)?;
    }
    Ok(())
}

/// The used entries in order.
pub(crate) fn entries_value(
    alloc: Global,
    device: &str,
    labels: &Labels,
    entries: &[Option<Entry>],
) -> Result<Value, AllocError>
    ensures { IfOk result (λ v. view v ≡ array_of (entries_data device.now labels.now 1 entries.now)) }
{
    let mut list = Array::new(alloc);
    for k in 0..entries.len() {
        push_entry(alloc, &mut list, device, labels, k as u64 + 1, &entries[k])?;
    }
    Ok(list.into_value())
}
