//! The sectors that no entry or record of a layout has yet, and those that no logical partition and no partition of a label has.

ghost use Rattle.std.specs.Prelude.{◌≡◌, ◌<◌, ◌^◌, ◌++◌, ◌∷◌, [], All, IfOk, OnOk, map};
ghost use Rattle.pt_edit.specs.Free.{AreFree, block_of, extended_from, extended_places, free_area, free_places, place_of};
ghost use Rattle.pt_edit.specs.Free.{slice_place, slice_places};
ghost use Rattle.pt_edit.specs.Space.{area_of, AreBlocks};
ghost use Rattle.pt_edit.specs.inner.Free.{Adds};

use crate::new_entry::table_space;
use crate::records::record_space;
use crate::space::{Run, Space, blocks};
use crate::{labels, records};
use pt_mbr::{Record, is_extended_kind};
use pt_members::{Body, Kind, Labels, Layout, Member, find_label};
use std::alloc::{AllocError, Global};

/// A block of free sectors.
#[derive(Clone, Copy, Debug, PartialEq, Eq)]
pub struct FreeBlock {
    pub first: u64,
    pub last: u64,
    /// The number of the extended partition or of the slice that it lies inside; none where it is for an entry or a record.
    pub inside: Option<u64>,
}

// Where a new entry or record may lie.
fn free_space(alloc: Global, layout: &Layout) -> Result<Space, AllocError>
    ensures area { IfOk result (λ space. area_of space ≡ free_area layout.now) }
    ensures small { IfOk result (λ space. space.high < 2 ^ 64) }
{
    match &layout.body {
        Body::Gpt(table) => table_space(alloc, table),
        Body::Mbr { records, .. } => record_space(alloc, layout.sectors, records),
    }
}

/// The blocks of sectors where a new entry or record may lie, all of them and in ascending order.
///
/// A block is free and as long as can be. Of a GPT the usable sectors are free that no entry has, of an MBR those from sector 1 on that no
/// record has, as far as the disk and 32 bits reach. What is free inside the extended partition or a slice isn't listed: `all_free_blocks`
/// has that too.
pub fn free_blocks(alloc: Global, layout: &Layout) -> Result<Vec<Run>, AllocError>
    ensures { IfOk result (λ list. AreBlocks (free_area layout.now) list.items) }
{
    let space = free_space(alloc, layout)?;
    blocks(alloc, space)
}

// Adds blocks with the number of what they lie inside.
fn push_runs(list: &mut Vec<FreeBlock>, inside: Option<u64>, runs: &[Run]) -> Result<(), AllocError>
    requires { All (λ r. (r.first < 2 ^ 64) × (r.last < 2 ^ 64)) runs.now }
    ensures { OnOk result (list.new.items ≡ list.old.items ++ map (block_of inside) runs.now) }
{
    for run in runs {
        list.push(FreeBlock {
            first: run.first as u64,
            last: run.last as u64,
            inside,
        })?;
    }
    Ok(())
}

// Adds the blocks of one place.
fn push_blocks(
    alloc: Global,
    list: &mut Vec<FreeBlock>,
    inside: Option<u64>,
    space: Space,
) -> Result<(), AllocError>
    requires { space.high < 2 ^ 64 }
    ensures { OnOk result (Adds (place_of inside (area_of space) ∷ []) list.old.items list.new.items) }
{
    let runs = blocks(alloc, space)?;
    push_runs(list, inside, runs.as_slice())
}

// The extended record, the first where there are more, with its number.
#[tactic(auto, using(crate::proofs::ExtendedNumber::searched))]
fn extended_in(records: &[Option<Record>; 4]) -> Option<(u64, Record)>
    ensures { result ≡ extended_from 1 records.now }
{
    for k in 0..4 {
        if let Some(r) = records[k] {
            if is_extended_kind(r.kind) {
                return Some((k as u64 + 1, r));
            }
        }
    }
    None
}

// Adds the blocks inside the extended partition.
fn push_extended(alloc: Global, list: &mut Vec<FreeBlock>, body: &Body) -> Result<(), AllocError>
    ensures { OnOk result (Adds (extended_places body.now) list.old.items list.new.items) }
{
    let Body::Mbr { records, chain } = body else {
        return Ok(());
    };
    match extended_in(records) {
        Some((number, extended)) => {
            let space = records::space_in(alloc, &extended, chain.as_slice())?;
            push_blocks(alloc, list, Some(number), space)
        }
        None => Ok(()),
    }
}

// Adds the blocks inside a slice that has a label.
fn push_slice(
    alloc: Global,
    list: &mut Vec<FreeBlock>,
    labels: &Labels,
    m: &Member,
) -> Result<(), AllocError>
    ensures { OnOk result (Adds (slice_place labels.now m.now) list.old.items list.new.items) }
{
    if m.kind != Kind::Slice || m.first > m.last || m.last >= 1 << 63 {
        return Ok(());
    }
    match find_label(labels, m.path.number) {
        Some(label) => {
            let space = labels::space_in(alloc, label, m)?;
            push_blocks(alloc, list, Some(m.path.number), space)
        }
        None => Ok(()),
    }
}

// Adds the blocks inside slices.
fn push_slices<const B: usize>(
    alloc: Global,
    list: &mut Vec<FreeBlock>,
    layout: &Layout,
) -> Result<(), AllocError>
    ensures { OnOk result (Adds (slice_places B layout.now) list.old.items list.new.items) }
{
    for row in layout.body.rows::<B>() {
        push_slice(alloc, list, &layout.labels, &row.member)?;
    }
    Ok(())
}

/// The blocks of sectors where a new partition may lie: first those of `free_blocks`, then those inside the extended partition, where
/// `n` places logical partitions, then those inside each slice that has a label, by the numbers of the slices. In each of these places all
/// blocks are listed, in ascending order.
///
/// In the extended partition the sectors of logical partitions and of extended boot records are taken. A new logical partition needs the
/// sector before it for its own record: the first of a block, or one that has an empty record already. In a slice the first sixteen
/// sectors are reserved, and those of the label's partitions are taken. A slice whose sectors reach 2^63, as no disk's do, isn't looked
/// into.
pub fn all_free_blocks<const B: usize>(
    alloc: Global,
    layout: &Layout,
) -> Result<Vec<FreeBlock>, AllocError>
    ensures { IfOk result (λ list. AreFree (free_places B layout.now) list.items) }
{
    let mut list = Vec::new(alloc);
    let space = free_space(alloc, layout)?;
    push_blocks(alloc, &mut list, None, space)?;
    push_extended(alloc, &mut list, &layout.body)?;
    push_slices::<B>(alloc, &mut list, layout)?;
    Ok(list)
}
