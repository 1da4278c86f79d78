//! The word `g`: the partitions of an MBR as the entries of a new GPT.

ghost use Rattle.std.specs.Prelude.{◌≡◌, ◌<◌, ◌≤◌, ◌+◌, ◌^◌, ◌≢◌, IfOk, drop, length, false, IfErr, OnOk, Ok, Err};
ghost use Rattle.std.specs.List.{list_any};
ghost use Rattle.std.specs.Str.{bytes_eq};
ghost use Rattle.pt_sector.specs.Sectors.{IsSectorSize};
ghost use Rattle.pt_gpt.specs.Copies.{edge};
ghost use Rattle.pt_members.specs.Tables.{HasFour};
ghost use Rattle.pt_members.specs.declared.layout.Body.TheVariants.{Gpt};
ghost use Rattle.pt_edit.specs.Converted.{has_unknown, has_twins, entries_of, entry_of, partitions_in, checked, gpt_of, converted};
ghost use Rattle.pt_edit.specs.inner.Entries.{Placeable};
ghost use Rattle.pt_edit.specs.Entries.{no_room, partitions};

use crate::partitions::{Partition, partitions_of};
use crate::room::has_no_room;
use pt_gpt::{Entries, Entry, MOST_ENTRIES, Table, first_usable};
use pt_guid::{Guid, type_of_record};
use pt_members::{Body, Layout};
use pt_words::Refusal;
use std::alloc::{AllocError, Global};

// Whether a partition is of a type that no entry has.
fn has_unknown(partitions: &[Partition]) -> bool
    ensures { result ≡ has_unknown partitions.now }
{
    for partition in partitions {
        if type_of_record(partition.kind).is_none() {
            return true;
        }
    }
    false
}

// Whether a GUID is one of these.
fn is_one_of(guid: &Guid, guids: &[Guid]) -> bool
    ensures { result ≡ list_any (λ h. bytes_eq guid.now.0 h.0) guids.now }
{
    for other in guids {
        if *guid == *other {
            return true;
        }
    }
    false
}

// Whether two of these GUIDs are one.
#[tactic(auto, unfolding(crate::specs::Converted::has_twins))]
fn has_twins(guids: &[Guid]) -> bool
    ensures { result ≡ has_twins guids.now }
{
    for k in 0..guids.len() {
        if is_one_of(&guids[k], &guids[k + 1..]) {
            return true;
        }
    }
    false
}

// The entry of a partition; none where its type has no GUID.
fn entry_for(partition: &Partition, unique: &Guid) -> Option<Entry>
    requires first { partition.now.first < 2 ^ 64 }
    requires last { partition.now.last < 2 ^ 64 }
    ensures { result ≡ entry_of unique.now partition.now }
{
    match type_of_record(partition.kind) {
        Some(kind) => Some(Entry {
            kind,
            unique: *unique,
            first: partition.first as u64,
            last: partition.last as u64,
            attributes: 0,
            name: [0; 36],
        }),
        None => None,
    }
}

// The entries of a new GPT. The first GUID is the disk's.
#[tactic(auto, unfolding(crate::specs::Converted::entries_of))]
fn entries_for(
    alloc: Global,
    partitions: &[Partition],
    guids: &[Guid],
) -> Result<Vec<Option<Entry>>, AllocError>
    requires placeable { Placeable (2 ^ 64) partitions.now }
    requires enough { 1 + length partitions.now ≤ length guids.now }
    ensures { IfOk result (λ v. v.items ≡ entries_of (drop 1 guids.now) partitions.now) }
{
    let mut entries = Vec::from_slice(alloc, &[None; MOST_ENTRIES])?;
    for k in 0..partitions.len() {
        let partition = &partitions[k];
        entries[partition.number as usize - 1] = entry_for(partition, &guids[1 + k]);
    }
    Ok(entries)
}

// The partitions of an MBR.
fn partitions_in(alloc: Global, body: &Body) -> Result<Vec<Partition>, Refusal>
    ensures ok { IfOk result (λ v. partitions_in body.now ≡ Ok v.items) }
    ensures are { IfOk result (λ v. v.items ≡ partitions body.now) }
    ensures four { OnOk result (HasFour body.now) }
    ensures err { IfErr result (λ refusal. refusal ≢ Refusal.Memory → partitions_in body.now ≡ Err refusal) }
{
    match body {
        Body::Mbr { .. } => Ok(partitions_of(alloc, body)?),
        Body::Gpt(_) => Err(Refusal::NotForThisTable),
    }
}

// Whether nothing stands in the way.
fn check<const B: usize>(
    layout: &Layout,
    found: &[Partition],
    guids: &[Guid],
) -> Result<(), Refusal>
    requires size { IsSectorSize B }
    ensures ok { OnOk result (checked B guids.now layout.now found.now ≡ Ok found.now) }
    ensures room { OnOk result (no_room B layout.now ≡ false) }
    ensures enough { OnOk result (1 + length found.now ≤ length guids.now) }
    ensures err { IfErr result (λ refusal. checked B guids.now layout.now found.now ≡ Err refusal) }
{
    if has_unknown(found) {
        return Err(Refusal::UnknownCode);
    }
    if has_no_room::<B>(layout) {
        return Err(Refusal::NoRoomForGpt);
    }
    if guids.len() <= found.len() {
        return Err(Refusal::NoFreshGuid);
    }
    if has_twins(&guids[1..found.len() + 1]) {
        return Err(Refusal::SameGuid);
    }
    Ok(())
}

// The table of a GPT with these partitions.
fn table_for<const B: usize>(
    alloc: Global,
    sectors: u64,
    partitions: &[Partition],
    guids: &[Guid],
) -> Result<Table, AllocError>
    requires size { IsSectorSize B }
    requires placeable { Placeable sectors partitions.now }
    requires enough { 1 + length partitions.now ≤ length guids.now }
    requires room { edge B ≤ sectors }
    ensures { IfOk result (λ t. t ≡ gpt_of B sectors guids.now partitions.now) }
{
    let entries = entries_for(alloc, partitions, guids)?;
    let first = first_usable::<B>();
    Ok(Table {
        disk: guids[0],
        first,
        last: sectors - first,
        entries: Entries::new(entries),
    })
}

// The layout with a GPT in the place of its table.
fn with_table(layout: Layout, table: Table) -> Layout
    ensures { result ≡ record { sectors = layout.sectors; body = Gpt table; labels = layout.labels } }
{
    let (sectors, _, labels) = layout.into_parts();
    Layout {
        sectors,
        body: Body::Gpt(table),
        labels,
    }
}

/// The layout of an MBR as that of a GPT of 128 entries: each partition but the extended one keeps its number and its sectors and gets
/// the type GUID of its type, no attributes and an empty name; the labels stay. Of `guids` the first is the disk's, the others are the
/// partitions', by ascending number; there may be more. [`guids_for`](crate::guids_for) says how many are taken.
///
/// The refusals, the first that holds: `NotForThisTable` where the layout isn't an MBR's; `UnknownCode` where a partition's type isn't
/// EF, 83, 82, 07 or A5; `NoRoomForGpt` where the disk is too small for a GPT, where a partition (one of a label too) or an extended
/// boot record lies outside of what that can use, or where there are more than 124 logical partitions; `NoFreshGuid` where there are
/// too few GUIDs; `SameGuid` where two partitions would get one. Partitions are judged by their first and last sectors alone, also
/// where such an extent doesn't exist. `Memory` comes where there is none for the partitions or the entries.
#[tactic(auto, unfolding(crate::specs::Converted::converted))]
pub fn to_gpt<const B: usize>(
    alloc: Global,
    layout: Layout,
    guids: &[Guid],
) -> Result<Layout, Refusal>
    requires size { IsSectorSize B }
    ensures ok { IfOk result (λ made. converted B guids.now layout ≡ Ok made) }
    ensures err { IfErr result (λ refusal. refusal ≢ Refusal.Memory → converted B guids.now layout ≡ Err refusal) }
{
    let partitions = partitions_in(alloc, &layout.body)?;
    check::<B>(&layout, &partitions, guids)?;
    let table = table_for::<B>(alloc, layout.sectors, &partitions, guids)?;
    Ok(with_table(layout, table))
}
