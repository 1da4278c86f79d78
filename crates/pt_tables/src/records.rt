//! The records of an MBR, and its logical partitions, as JSON.

ghost use Rattle.std.specs.Prelude.{◌≡◌, ◌<◌, ◌+◌, ◌^◌, ◌++◌, ◌∷◌, [], IfOk, OnOk, map, string_bytes};
ghost use Rattle.serde_json.specs.View.{view};
ghost use Rattle.pt_tables.specs.Fields.{num, object_of, with_fields};
ghost use Rattle.pt_tables.specs.Records.{boot_fields, chain_fields, further_fields, kind_fields, kind_text, logical_data};
ghost use Rattle.pt_tables.specs.Records.{logical_fields, logicals_data, number_after, record_data, record_fields};
ghost use Rattle.pt_tables.specs.Records.{records_data, start_field};
ghost use Rattle.pt_tables.specs.inner.Objects.{members_in, values_in};

use crate::labels::put_label;
use crate::names::{node, put_type_name};
use crate::object::{Array, Object};
use pt_bsd::Label;
use pt_mbr::{Ebr, FIRST_LOGICAL, Record, SLICE_KIND};
use pt_members::{Labels, find_label};
use pt_types::record_type_name;
use serde_json::Value;
use std::alloc::{AllocError, Global};

// A type (OSType) in hexadecimal digits, without a zero in front.
fn type_text(alloc: Global, kind: u8) -> Result<String, AllocError>
    ensures { IfOk result (λ s. string_bytes s ≡ kind_text kind) }
{
    let text = hex::encode(alloc, [kind])?;
    match text.as_str().strip_prefix("0") {
        Some(digit) => String::from_str(alloc, digit),
        None => Ok(text),
    }
}

#[tactic(auto, unfolding(crate::specs::Records::boot_fields))]
fn put_boot(alloc: Global, object: &mut Object, boot: u8) -> Result<(), AllocError>
    ensures { OnOk result (members_in object.new ≡ with_fields (boot_fields boot) (members_in object.old)) }
{
    match boot {
        0 => Ok(()),
        0x80 => object.put(alloc, "bootable", Value::Bool(true)),
        _ => object.put_number(alloc, "boot", u64::from(boot)),
    }
}

#[tactic(auto, using(crate::proofs::Puts::with_more), unfolding(crate::specs::Records::further_fields))]
fn put_further(
    alloc: Global,
    object: &mut Object,
    record: &Record,
    label: &Option<Label>,
) -> Result<(), AllocError>
    ensures { OnOk result (members_in object.new ≡ with_fields (further_fields record.now label.now) (members_in object.old)) }
{
    put_type_name(alloc, object, record_type_name(record.kind))?;
    put_boot(alloc, object, record.boot)?;
    put_label(alloc, object, record.kind == SLICE_KIND, label)
}

// Puts what a record says but for its place.
#[tactic(auto, unfolding(crate::specs::Records::kind_fields))]
fn put_kind(
    alloc: Global,
    object: &mut Object,
    record: &Record,
    label: &Option<Label>,
) -> Result<(), AllocError>
    ensures { OnOk result (members_in object.new ≡ with_fields (kind_fields record.now label.now) (members_in object.old)) }
{
    let kind = type_text(alloc, record.kind)?;
    object.put(alloc, "type", Value::String(kind))?;
    object.put_bytes(alloc, "start_chs", record.start_chs.as_slice())?;
    object.put_bytes(alloc, "end_chs", record.end_chs.as_slice())?;
    put_further(alloc, object, record, label)
}

fn record_value(
    alloc: Global,
    device: &str,
    number: u64,
    record: &Record,
    label: &Option<Label>,
) -> Result<Value, AllocError>
    ensures { IfOk result (λ v. view v ≡ object_of (record_fields device.now number record.now label.now)) }
{
    let node = node(alloc, device, number)?;
    let mut object = Object::new(alloc);
    object.put_number(alloc, "number", number)?;
    object.put(alloc, "node", Value::String(node))?;
    object.put_number(alloc, "start", u64::from(record.start))?;
    object.put_number(alloc, "size", u64::from(record.size))?;
    put_kind(alloc, &mut object, record, label)?;
    Ok(object.into_value())
}

// Adds what stands in a place of sector 0, where it is used.
fn push_record(
    alloc: Global,
    list: &mut Array,
    device: &str,
    labels: &Labels,
    number: u64,
    record: &Option<Record>,
) -> Result<(), AllocError>
    ensures { OnOk result (values_in list.new ≡ values_in list.old ++ record_data device.now labels.now number record.now) }
{
    if let Some(record) = record {
        let label = find_label(labels, number);
        list.push(record_value(alloc, device, number, record, &label)?)?;
    }
    Ok(())
}

/// Adds the used records of sector 0 in order.
pub(crate) fn push_records(
    alloc: Global,
    list: &mut Array,
    device: &str,
    labels: &Labels,
    records: &[Option<Record>],
) -> Result<(), AllocError>
    ensures { OnOk result (values_in list.new ≡ values_in list.old ++ records_data device.now labels.now 1 records.now) }
{
    for k in 0..records.len() {
        push_record(alloc, list, device, labels, k as u64 + 1, &records[k])?;
    }
    Ok(())
}

// Puts where a logical partition starts on the disk, or how far behind its extended boot record.
fn put_start(alloc: Global, object: &mut Object, at: u64, start: u32) -> Result<(), AllocError>
    ensures { OnOk result (members_in object.new ≡ with_fields (start_field at start ∷ []) (members_in object.old)) }
{
    match at.checked_add(u64::from(start)) {
        Some(first) => object.put_number(alloc, "start", first),
        None => object.put_number(alloc, "offset", u64::from(start)),
    }
}

fn logical_value(
    alloc: Global,
    device: &str,
    number: u64,
    at: u64,
    record: &Record,
    label: &Option<Label>,
) -> Result<Value, AllocError>
    ensures { IfOk result (λ v. view v ≡ object_of (logical_fields device.now number at record.now label.now)) }
{
    let node = node(alloc, device, number)?;
    let mut object = Object::new(alloc);
    object.put_number(alloc, "number", number)?;
    object.put(alloc, "node", Value::String(node))?;
    object.put_number(alloc, "record", at)?;
    put_start(alloc, &mut object, at, record.start)?;
    object.put_number(alloc, "size", u64::from(record.size))?;
    put_kind(alloc, &mut object, record, label)?;
    Ok(object.into_value())
}

// Adds the partition of an extended boot record, where it has one.
fn push_logical(
    alloc: Global,
    list: &mut Array,
    device: &str,
    labels: &Labels,
    number: u64,
    ebr: &Ebr,
) -> Result<(), AllocError>
    ensures { OnOk result (values_in list.new
        ≡ values_in list.old ++ logical_data device.now labels.now number ebr.now.at.0 ebr.now.logical) }
{
    if let Some(record) = &ebr.logical {
        let label = find_label(labels, number);
        list.push(logical_value(alloc, device, number, ebr.at.0, record, &label)?)?;
    }
    Ok(())
}

fn next_number(number: u64, logical: &Option<Record>) -> u64
    requires { number + 1 < 2 ^ 64 }
    ensures { result ≡ number_after number logical.now }
{
    match logical {
        Some(_) => number + 1,
        None => number,
    }
}

/// Adds the logical partitions of a chain in order.
pub(crate) fn push_logicals(
    alloc: Global,
    list: &mut Array,
    device: &str,
    labels: &Labels,
    chain: &[Ebr],
) -> Result<(), AllocError>
    ensures { OnOk result (values_in list.new ≡ values_in list.old ++ logicals_data device.now labels.now 5 chain.now) }
{
    let mut number = FIRST_LOGICAL;
    for k in 0..chain.len() {
        push_logical(alloc, list, device, labels, number, &chain[k])?;
        number = next_number(number, &chain[k].logical);
    }
    Ok(())
}

/// Puts the sectors of the extended boot records, where there are some.
pub(crate) fn put_chain(alloc: Global, object: &mut Object, chain: &[Ebr]) -> Result<(), AllocError>
    ensures { OnOk result (members_in object.new ≡ with_fields (chain_fields chain.now) (members_in object.old)) }
{
    if chain.is_empty() {
        return Ok(());
    }
    let mut sectors = Array::new(alloc);
    for ebr in chain {
        sectors.push_number(ebr.at.0)?;
    }
    object.put(alloc, "chain", sectors.into_value())
}
