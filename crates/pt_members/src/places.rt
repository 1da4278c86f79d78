//! The sectors of partitions, and the owners of sectors.

ghost use Rattle.std.specs.Prelude.{◌↔◌, ℕ, IsTrue, IfSome, IfNone};
ghost use Rattle.pt_sector.specs.Sectors.{IsSectorSize};
ghost use Rattle.pt_members.specs.Tables.{IsPlaceOf, IsUnusable, IsInSlice, OwnerIs};

use crate::layout::{Body, Layout};
use crate::ownership::Owner;
use crate::search::{Wanted, find};
use crate::tables::is_table;
use pt_path::Path;
use pt_sector::Lba;

/// Sector `k`, from 0 on, of the partition of a path.
///
/// None past the partition's end, for a path that the layout doesn't have, for the extended partition, a slice or a
/// raw entry c, and for a partition whose sectors don't exist.
pub fn locate<const B: usize>(layout: &Layout, path: &Path, k: u64) -> Option<Lba>
    ensures some { IfSome result (λ s. IsPlaceOf B layout.now path.now k s.0) }
    ensures none { IfNone result ((s : ℕ) → ¬ IsPlaceOf B layout.now path.now k s) }
{
    match find::<B>(layout, &Wanted::LeafNamed(*path, k)) {
        Some(m) => Some(Lba(m.first as u64 + k)),
        None => None,
    }
}

fn is_in_slice<const B: usize>(layout: &Layout, lba: Lba) -> bool
    ensures { IsTrue result ↔ IsInSlice B layout.now lba.0 }
{
    match find::<B>(layout, &Wanted::SliceWith(lba)) {
        Some(_) => true,
        None => false,
    }
}

fn is_unusable(body: &Body, lba: Lba) -> bool
    ensures { IsTrue result ↔ IsUnusable body.now lba.0 }
{
    match body {
        Body::Mbr { .. } => false,
        Body::Gpt(table) => lba.0 < table.first || table.last < lba.0,
    }
}

/// What a sector is for: the partition that has it, or else a table, or else reserved, or else free.
///
/// On a sound layout a sector is in one partition at most. Where more than one partition has it, the first of them in
/// path order is reported.
pub fn owner<const B: usize>(layout: &Layout, lba: Lba) -> Owner
    requires { IsSectorSize B }
    ensures { OwnerIs B layout.now lba.0 result }
{
    match find::<B>(layout, &Wanted::LeafWith(lba)) {
        Some(m) => return Owner::Partition(m.path),
        None => {}
    }
    if is_table::<B>(layout, lba) {
        return Owner::Table;
    }
    if is_in_slice::<B>(layout, lba) {
        return Owner::Reserved;
    }
    if is_unusable(&layout.body, lba) {
        return Owner::Reserved;
    }
    Owner::Free
}
