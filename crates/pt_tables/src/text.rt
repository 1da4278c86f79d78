//! The text of a table.

ghost use Rattle.std.specs.Prelude.{◌≡◌, IfOk, OnOk, string_bytes};
ghost use Rattle.pt_sector.specs.Sectors.{IsSectorSize};
ghost use Rattle.serde_json.specs.View.{view};
ghost use Rattle.pt_members.specs.declared.layout.Body.TheVariants.{Gpt, Mbr};
ghost use Rattle.pt_tables.specs.Fields.{with_fields};
ghost use Rattle.pt_tables.specs.Text.{IsText, body_fields, common_fields, table_data};
ghost use Rattle.pt_tables.specs.inner.Objects.{members_in};

use crate::entries::{entries_value, put_guid};
use crate::object::{Array, Object};
use crate::records::{push_logicals, push_records, put_chain};
use pt_gpt::Table;
use pt_mbr::{Ebr, Record};
use pt_members::{Body, Labels, Layout};
use serde_json::Value;
use std::alloc::{AllocError, Global};

fn put_common(
    alloc: Global,
    object: &mut Object,
    device: &str,
    sector_size: u64,
    sectors: u64,
) -> Result<(), AllocError>
    ensures { OnOk result (members_in object.new ≡ with_fields (common_fields device.now sector_size sectors) (members_in object.old)) }
{
    object.put_text(alloc, "device", device)?;
    object.put_text(alloc, "unit", "sectors")?;
    object.put_number(alloc, "sectorsize", sector_size)?;
    object.put_number(alloc, "sectors", sectors)
}

fn put_gpt(
    alloc: Global,
    object: &mut Object,
    device: &str,
    labels: &Labels,
    table: &Table,
) -> Result<(), AllocError>
    ensures { OnOk result
        (members_in object.new ≡ with_fields (body_fields device.now labels.now (Gpt table.now)) (members_in object.old)) }
{
    let entries = table.entries.as_slice();
    let partitions = entries_value(alloc, device, labels, entries)?;
    object.put_text(alloc, "label", "gpt")?;
    put_guid(alloc, object, "id", &table.disk)?;
    object.put_number(alloc, "firstlba", table.first)?;
    object.put_number(alloc, "lastlba", table.last)?;
    object.put_number(alloc, "entries", entries.len() as u64)?;
    object.put(alloc, "partitions", partitions)
}

fn put_mbr(
    alloc: Global,
    object: &mut Object,
    device: &str,
    labels: &Labels,
    records: &[Option<Record>; 4],
    chain: &[Ebr],
) -> Result<(), AllocError>
    ensures { OnOk result
        (members_in object.new ≡ with_fields (body_fields device.now labels.now (Mbr «records».now chain.now)) (members_in object.old)) }
{
    let mut partitions = Array::new(alloc);
    push_records(alloc, &mut partitions, device, labels, records.as_slice())?;
    push_logicals(alloc, &mut partitions, device, labels, chain)?;
    object.put_text(alloc, "label", "dos")?;
    object.put(alloc, "partitions", partitions.into_value())?;
    put_chain(alloc, object, chain)
}

fn put_body(
    alloc: Global,
    object: &mut Object,
    device: &str,
    layout: &Layout,
) -> Result<(), AllocError>
    ensures { OnOk result (members_in object.new
        ≡ with_fields (body_fields device.now layout.now.labels layout.now.body) (members_in object.old)) }
{
    match &layout.body {
        Body::Gpt(table) => put_gpt(alloc, object, device, &layout.labels, table),
        Body::Mbr { records, chain } => {
            put_mbr(
                alloc,
                object,
                device,
                &layout.labels,
                records,
                chain.as_slice(),
            )
        }
    }
}

fn table_value(
    alloc: Global,
    device: &str,
    sector_size: u64,
    layout: &Layout,
) -> Result<Value, AllocError>
    ensures { IfOk result (λ v. view v ≡ table_data device.now sector_size layout.now) }
{
    let mut table = Object::new(alloc);
    put_common(alloc, &mut table, device, sector_size, layout.sectors)?;
    put_body(alloc, &mut table, device, layout)?;
    let mut object = Object::new(alloc);
    object.put(alloc, "partitiontable", table.into_value())?;
    Ok(object.into_value())
}

/// The table of a layout as one object of JSON, in the manner of `sfdisk --json` (docs/table.md). `device` is the name that stands under
/// `device`, and before a number under `node`; B is the size of a sector in bytes.
///
/// The error is lack of memory.
pub fn table_text<const B: usize>(
    alloc: Global,
    device: &str,
    layout: &Layout,
) -> Result<String, AllocError>
    requires { IsSectorSize B }
    ensures { IfOk result (λ text. IsText (string_bytes text) (table_data device.now B layout.now)) }
{
    table_value(alloc, device, B as u64, layout)?.to_string_pretty(alloc)
}
