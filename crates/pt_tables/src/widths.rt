//! The widths of a layout's fields. Their types say them; a law sees a layout as a value without types.

ghost use Rattle.std.specs.Prelude.{◌≡◌, ◌<◌, ◌^◌, IfSome, length};
ghost use Rattle.pt_tables.specs.Shown.{AreBelow, AreBytes, BodyWidths, ChainWidths, EntriesWidths, EntryWidths, GuidWidth, LabelWidths};
ghost use Rattle.pt_tables.specs.Shown.{LabelsWidths, RecordWidths, RecordsWidths, Widths};

use pt_bsd::Label;
use pt_gpt::Entry;
use pt_guid::Guid;
use pt_mbr::{Ebr, Record};
use pt_members::{Body, Labelled, Layout};

fn byte_width(_byte: u8)
    ensures { _byte < 2 ^ 8 }
{}

fn bytes_width(_bytes: &[u8])
    ensures { AreBytes _bytes.now }
{}

fn units_width(_units: &[u16])
    ensures { AreBelow (2 ^ 16) _units.now }
{}

fn guid_width(guid: &Guid)
    ensures { GuidWidth guid.now }
{
    bytes_width(&guid.0[..]);
}

fn entry_widths(slot: &Option<Entry>)
    ensures { IfSome slot.now EntryWidths }
{
    if let Some(entry) = slot {
        guid_width(&entry.kind);
        guid_width(&entry.unique);
        units_width(&entry.name[..]);
    }
}

fn entries_widths(entries: &[Option<Entry>])
    ensures { EntriesWidths entries.now }
{
    for k in 0..entries.len() {
        entry_widths(&entries[k]);
    }
}

fn record_widths(slot: &Option<Record>)
    ensures { IfSome slot.now RecordWidths }
{
    if let Some(record) = slot {
        bytes_width(&record.start_chs[..]);
        byte_width(record.kind);
        bytes_width(&record.end_chs[..]);
    }
}

fn records_widths(records: &[Option<Record>; 4])
    ensures widths { RecordsWidths records.now }
    ensures four { length records.now ≡ 4 }
{
    for k in 0..4usize {
        record_widths(&records[k]);
    }
}

fn chain_widths(chain: &[Ebr])
    ensures { ChainWidths chain.now }
{
    for k in 0..chain.len() {
        record_widths(&chain[k].logical);
    }
}

fn label_widths(label: &Label)
    ensures { LabelWidths label.now }
{
    bytes_width(&label.type_name[..]);
    bytes_width(&label.pack_name[..]);
    bytes_width(&label.kept[..]);
}

fn labels_widths(labels: &[Labelled])
    ensures { LabelsWidths labels.now }
{
    for k in 0..labels.len() {
        label_widths(&labels[k].label);
    }
}

fn body_widths(body: &Body)
    ensures { BodyWidths body.now }
{
    match body {
        Body::Mbr { records, chain } => {
            records_widths(records);
            chain_widths(chain.as_slice());
        }
        Body::Gpt(table) => {
            guid_width(&table.disk);
            entries_widths(table.entries.as_slice());
        }
    }
}

/// That the bytes, the units and the places of a layout are as many and as wide as their types say.
pub fn field_widths(layout: &Layout)
    ensures { Widths layout.now }
{
    body_widths(&layout.body);
    labels_widths(layout.labels.as_slice());
}
