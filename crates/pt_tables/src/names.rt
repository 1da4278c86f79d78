//! Names of entries, and of their partitions' devices, as JSON.

ghost use Rattle.std.specs.Prelude.{◌≡◌, IfOk, IfSome, OnOk, is_none, option_map, string_bytes};
ghost use Rattle.std.specs.Char.Utf16.{utf16_lossy_chars};
ghost use Rattle.std.specs.Str.{encode_utf8_all};
ghost use Rattle.serde_json.specs.View.{view};
ghost use Rattle.pt_tables.specs.Fields.{nums, type_name_fields, with_fields};
ghost use Rattle.pt_tables.specs.Entries.{between, ends_with_digit, has_zero, is_no_text, name_fields, node_text, trimmed, units_fields};
ghost use Rattle.pt_tables.specs.inner.Objects.{members_in};

use crate::object::{Array, Object};
use serde_json::Value;
use std::alloc::{AllocError, Global};

// The units without the zeros at their end.
fn without_zeros(units: &[u16]) -> &[u16]
    ensures { result.now ≡ trimmed units.now }
{
    let mut count = units.len();
    while count > 0 && units[count - 1] == 0 {
        count -= 1;
    }
    &units[..count]
}

fn holds_zero(units: &[u16]) -> bool
    ensures { result ≡ has_zero units.now }
{
    for unit in units {
        if *unit == 0 {
            return true;
        }
    }
    false
}

fn numbers(alloc: Global, units: &[u16]) -> Result<Value, AllocError>
    ensures { IfOk result (λ v. view v ≡ nums units.now) }
{
    let mut numbers = Array::new(alloc);
    for unit in units {
        numbers.push_number(u64::from(*unit))?;
    }
    Ok(numbers.into_value())
}

// The text of some units, where they have one.
fn text(alloc: Global, units: &[u16]) -> Result<Option<String>, AllocError>
    ensures text { IfOk result (λ o. IfSome o (λ s. string_bytes s ≡ encode_utf8_all (utf16_lossy_chars units.now))) }
    ensures none { IfOk result (λ o. is_none o ≡ is_no_text units.now) }
{
    if holds_zero(units) {
        return Ok(None);
    }
    match String::from_utf16(alloc, units)? {
        Ok(text) => Ok(Some(text)),
        Err(_) => Ok(None),
    }
}

fn put_units(alloc: Global, object: &mut Object, units: &[u16]) -> Result<(), AllocError>
    ensures { OnOk result (members_in object.new ≡ with_fields (units_fields units.now) (members_in object.old)) }
{
    if units.is_empty() {
        return Ok(());
    }
    match text(alloc, units)? {
        Some(text) => object.put(alloc, "name", Value::String(text)),
        None => {
            let value = numbers(alloc, units)?;
            object.put(alloc, "name_units", value)
        }
    }
}

/// Puts an entry's name, where it has one.
pub(crate) fn put_name(
    alloc: Global,
    object: &mut Object,
    name: &[u16; 36],
) -> Result<(), AllocError>
    ensures { OnOk result (members_in object.new ≡ with_fields (name_fields «name».now) (members_in object.old)) }
{
    put_units(alloc, object, without_zeros(name.as_slice()))
}

/// Puts the name of a type, where it has one.
pub(crate) fn put_type_name(
    alloc: Global,
    object: &mut Object,
    name: Option<&str>,
) -> Result<(), AllocError>
    ensures { OnOk result (members_in object.new
        ≡ with_fields (type_name_fields (option_map (λ it. it.now) name.entry)) (members_in object.old)) }
{
    match name {
        Some(name) => object.put_text(alloc, "type_name", name),
        None => Ok(()),
    }
}

fn is_before_digit(device: &str) -> bool
    ensures { result ≡ ends_with_digit device.now }
{
    let bytes = device.as_bytes();
    !bytes.is_empty() && bytes[bytes.len() - 1].is_ascii_digit()
}

// What stands between a device's name and a number.
fn between(device: &str) -> &'static str
    ensures { result.now ≡ between device.now }
{
    if is_before_digit(device) { "p" } else { "" }
}

/// The name of partition `number` of a device.
pub(crate) fn node(alloc: Global, device: &str, number: u64) -> Result<String, AllocError>
    ensures { IfOk result (λ s. string_bytes s ≡ node_text device.now number) }
{
    let between = between(device);
    format!(in alloc; "{device}{between}{number}")
}
