//! The label of a slice as JSON.

ghost use Rattle.std.specs.Prelude.{◌≡◌, IfOk, OnOk, map};
ghost use Rattle.serde_json.specs.View.{view};
ghost use Rattle.pt_tables.specs.Fields.{array_of, nums, with_fields};
ghost use Rattle.pt_tables.specs.Labels.{bsd_fields, label_data, label_fields, part_data};
ghost use Rattle.pt_tables.specs.inner.Objects.{members_in};

use crate::object::{Array, Object};
use pt_bsd::{Label, LabelEntry};
use serde_json::Value;
use std::alloc::{AllocError, Global};

fn numbers(alloc: Global, list: &[u32]) -> Result<Value, AllocError>
    ensures { IfOk result (λ v. view v ≡ nums list.now) }
{
    let mut numbers = Array::new(alloc);
    for number in list {
        numbers.push_number(u64::from(*number))?;
    }
    Ok(numbers.into_value())
}

fn part(alloc: Global, entry: &Option<LabelEntry>) -> Result<Value, AllocError>
    ensures { IfOk result (λ v. view v ≡ part_data entry.now) }
{
    let Some(entry) = entry else {
        return Ok(Value::Null);
    };
    let mut part = Object::new(alloc);
    part.put_number(alloc, "size", u64::from(entry.size))?;
    part.put_number(alloc, "offset", u64::from(entry.offset))?;
    part.put_number(alloc, "fragment", u64::from(entry.fragment))?;
    part.put_number(alloc, "fstype", u64::from(entry.fstype))?;
    part.put_number(alloc, "frag", u64::from(entry.frag))?;
    part.put_number(alloc, "cpg", u64::from(entry.cpg))?;
    Ok(part.into_value())
}

fn parts(alloc: Global, entries: &[Option<LabelEntry>]) -> Result<Value, AllocError>
    ensures { IfOk result (λ v. view v ≡ array_of (map part_data entries.now)) }
{
    let mut parts = Array::new(alloc);
    for entry in entries {
        parts.push(part(alloc, entry)?)?;
    }
    Ok(parts.into_value())
}

fn label_value(alloc: Global, label: &Label) -> Result<Value, AllocError>
    ensures { IfOk result (λ v. view v ≡ label_data label.now) }
{
    let geometry = numbers(alloc, label.geometry.as_slice())?;
    let entries = parts(alloc, label.entries.as_slice())?;
    let mut object = Object::new(alloc);
    object.put_number(alloc, "kind", u64::from(label.kind))?;
    object.put_number(alloc, "subtype", u64::from(label.subtype))?;
    object.put_bytes(alloc, "type_name", label.type_name.as_slice())?;
    object.put_bytes(alloc, "pack_name", label.pack_name.as_slice())?;
    object.put(alloc, "geometry", geometry)?;
    object.put_number(alloc, "unit", u64::from(label.unit))?;
    object.put_bytes(alloc, "kept", label.kept.as_slice())?;
    object.put_number(alloc, "bbsize", u64::from(label.bbsize))?;
    object.put_number(alloc, "sbsize", u64::from(label.sbsize))?;
    object.put(alloc, "entries", entries)?;
    Ok(object.into_value())
}

/// Puts the label of a partition, or that a slice has none.
pub(crate) fn put_label(
    alloc: Global,
    object: &mut Object,
    is_slice: bool,
    label: &Option<Label>,
) -> Result<(), AllocError>
    ensures { OnOk result (members_in object.new ≡ with_fields (bsd_fields is_slice label.now) (members_in object.old)) }
{
    if let Some(label) = label {
        let value = label_value(alloc, label)?;
        return object.put(alloc, "bsd", value);
    }
    if is_slice {
        return object.put(alloc, "bsd", Value::Null);
    }
    Ok(())
}
