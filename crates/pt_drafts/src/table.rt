//! What a table says.

ghost use Rattle.std.specs.Prelude.{◌≡◌, IfOk, IfErr, None, Ok, [], codes, map};
ghost use Rattle.serde_json.specs.Find.{get};
ghost use Rattle.serde_json.specs.View.{view};
ghost use Rattle.pt_drafts.specs.Members.{given};
ghost use Rattle.pt_drafts.specs.Tables.{Tells, draft_with, entries_from, entries_in, head_in, is_list, is_sectors, listed, parts_from};
ghost use Rattle.pt_drafts.specs.Tables.{room_in, table_in, told};
ghost use Rattle.pt_drafts.specs.Values.{each_of, whole};
ghost use Rattle.pt_drafts.specs.declared.fault.Key.TheVariants as key;

use crate::arrays::{each, list};
use crate::draft::{Chain, DiskId, Draft, Parts, TableKind};
use crate::fault::{DraftError, Key, TextFault};
use crate::members::{check, given, has_only, is_text};
use crate::parts::part;
use crate::texts::Count;
use serde_json::Value;
use std::alloc::Global;

// Tells in which object a fault lies.
fn told<T: Drop>(found: Result<T, Key>, part: Option<u64>) -> Result<T, TextFault>
    ensures { result ≡ told part found }
{
    match found {
        Ok(value) => Ok(value),
        Err(key) => Err(TextFault { key, part }),
    }
}

// ---- the members of a table, but for its partitions

fn is_sectors(table: &Value) -> bool
    ensures { result ≡ is_sectors (get (codes "unit") (view table.now)) }
{
    match table.get("unit") {
        Some(value) => match value.as_str() {
            Some(text) => text == "sectors",
            None => false,
        },
        None => true,
    }
}

// What a table says of the disk.
#[derive(Clone, Copy)]
struct Head {
    label: Option<TableKind>,
    sector_size: Option<u64>,
    sectors: Option<u64>,
    disk: Option<DiskId>,
}

fn head_of(table: &Value) -> Result<Head, Key>
    ensures { result ≡ head_in (view table.now) }
{
    let label = given::<TableKind>(table, "label", Key::Label)?;
    check(is_text(table, "device"), Key::Device)?;
    check(is_sectors(table), Key::Unit)?;
    let sector_size = given::<u64>(table, "sectorsize", Key::SectorSize)?;
    let sectors = given::<u64>(table, "sectors", Key::Sectors)?;
    let disk = given::<DiskId>(table, "id", Key::Id)?;
    Ok(Head {
        label,
        sector_size,
        sectors,
        disk,
    })
}

fn entries_from(entries: Option<u64>, count: Option<u64>) -> Result<Option<u64>, Key>
    ensures { result ≡ entries_from entries count }
{
    match (entries, count) {
        (None, count) => Ok(count),
        (Some(entries), None) => Ok(Some(entries)),
        (Some(entries), Some(count)) => {
            check(entries == count, Key::TableLength)?;
            Ok(Some(entries))
        }
    }
}

fn entries(table: &Value) -> Result<Option<u64>, Key>
    ensures { result ≡ entries_in (view table.now) }
{
    let entries = given::<u64>(table, "entries", Key::Entries)?;
    let count = given::<Count>(table, "table-length", Key::TableLength)?;
    entries_from(entries, count)
}

// What a table has room for.
#[derive(Clone, Copy)]
struct Room {
    first: Option<u64>,
    last: Option<u64>,
    entries: Option<u64>,
}

fn room_of(table: &Value) -> Result<Room, Key>
    ensures { result ≡ room_in (view table.now) }
{
    let first = given::<u64>(table, "firstlba", Key::FirstLba)?;
    let last = given::<u64>(table, "lastlba", Key::LastLba)?;
    let entries = entries(table)?;
    Ok(Room {
        first,
        last,
        entries,
    })
}

fn chain(alloc: Global, table: &Value) -> Result<Option<Chain>, DraftError>
    ensures ok { IfOk result (λ c. told None (given (each_of whole) (codes "chain") key.Chain (view table.now)) ≡ Ok c) }
    ensures err { IfErr result (Tells (told None (given (each_of whole) (codes "chain") key.Chain (view table.now)))) }
{
    let Some(value) = table.get("chain") else {
        return Ok(None);
    };
    if let Some(values) = list(value) {
        if let Some(chain) = each(alloc, values)? {
            return Ok(Some(chain));
        }
    }
    Err(DraftError::Fault(TextFault {
        key: Key::Chain,
        part: None,
    }))
}

// ---- partitions

fn is_list(table: &Value) -> bool
    ensures { result ≡ is_list (get (codes "partitions") (view table.now)) }
{
    match table.get("partitions") {
        Some(value) => value.is_array(),
        None => true,
    }
}

// The partitions of some objects.
fn parts_of(alloc: Global, objects: &[Value]) -> Result<Parts, DraftError>
    ensures ok { IfOk result (λ parts. parts_from 1 (map view objects.now) ≡ Ok parts) }
    ensures err { IfErr result (Tells (parts_from 1 (map view objects.now))) }
{
    let mut parts = Vec::new(alloc);
    for k in 0..objects.len() {
        match told(part(&objects[k]), Some(k as u64 + 1)) {
            Ok(found) => parts.push(found)?,
            Err(fault) => return Err(DraftError::Fault(fault)),
        }
    }
    Ok(Parts::new(parts))
}

#[tactic(auto, unfolding(crate::specs::Tables::parts_from))]
fn no_parts(alloc: Global) -> Parts
    ensures { parts_from 1 [] ≡ Ok result }
{
    Parts::new(Vec::new(alloc))
}

fn parts(alloc: Global, table: &Value) -> Result<Parts, DraftError>
    ensures ok { IfOk result (λ parts. parts_from 1 (listed (get (codes "partitions") (view table.now))) ≡ Ok parts) }
    ensures err { IfErr result (Tells (parts_from 1 (listed (get (codes "partitions") (view table.now))))) }
{
    match table.get("partitions") {
        Some(value) => match list(value) {
            Some(objects) => parts_of(alloc, objects),
            None => Ok(no_parts(alloc)),
        },
        None => Ok(no_parts(alloc)),
    }
}

// ---- the whole table

const TABLE_NAMES: [&str; 13] = [
    "label",
    "device",
    "unit",
    "sectorsize",
    "sectors",
    "id",
    "firstlba",
    "lastlba",
    "entries",
    "table-length",
    "grain",
    "partitions",
    "chain",
];

fn draft_with(head: Head, room: Room, chain: Option<Chain>, parts: Parts) -> Draft
    ensures { result ≡ draft_with head room chain parts }
{
    Draft {
        label: head.label,
        disk: head.disk,
        first: room.first,
        last: room.last,
        entries: room.entries,
        sectors: head.sectors,
        sector_size: head.sector_size,
        chain,
        parts,
    }
}

/// What a table says, or its first fault.
#[tactic(auto, unfolding(crate::specs::Tables::table_in))]
pub(crate) fn table_draft(alloc: Global, table: &Value) -> Result<Draft, DraftError>
    ensures ok { IfOk result (λ d. table_in (view table.now) ≡ Ok d) }
    ensures err { IfErr result (Tells (table_in (view table.now))) }
{
    told(check(has_only(table, &TABLE_NAMES), Key::Unknown), None)?;
    let head = told(head_of(table), None)?;
    let room = told(room_of(table), None)?;
    told(check(is_list(table), Key::Partitions), None)?;
    let chain = chain(alloc, table)?;
    let parts = parts(alloc, table)?;
    Ok(draft_with(head, room, chain, parts))
}
