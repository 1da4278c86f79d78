//! What sector 0 must hold, and the extended partition that a chain stands in.

ghost use Rattle.std.specs.Prelude.{◌≡◌, ◌↔◌, ◌<◌, ◌^◌, ℕ, List, IfSome, IfNone, IsTrue};
ghost use Rattle.pt_sector.specs.Sectors.{IsSectorSize};
ghost use Rattle.pt_mbr.specs.Records.{AreRecords, extended_of};
ghost use Rattle.pt_mbr.specs.Changes.{ArePlain};
ghost use Rattle.pt_recover.specs.Denotes.{IsMbrSector};
ghost use Rattle.pt_cases.specs.Writes.{IsHeadTarget};
ghost use Rattle.pt_planner.specs.inner.Places.{AreMbr, StartsAt};

use pt_mbr::{Extended, Record, bears_protective, change_records, decode_mbr, extended_of};
use pt_sector::{Lba, Sector};

// Whether the sector is one of an MBR disk, with these records.
fn reads_as<const B: usize>(sector: &Sector<B>, records: &[Option<Record>; 4]) -> bool
    requires size { IsSectorSize B }
    ensures { IsTrue result ↔ (IsMbrSector sector.now × AreRecords records.now sector.now) }
{
    match decode_mbr(sector) {
        Some(mbr) => mbr.records == *records && !bears_protective(sector),
        None => false,
    }
}

// Sector 0 with the records that change from `old` to `new` written; none where no bytes would do.
pub(crate) fn head_target<const B: usize>(
    under: &Sector<B>,
    old: &[Option<Record>; 4],
    new: &[Option<Record>; 4],
) -> Option<Sector<B>>
    requires size { IsSectorSize B }
    ensures some { IfSome result (λ v. IsHeadTarget old.now new.now under.now v) }
    ensures none { IfNone result ((v : List ℕ) → ¬ IsHeadTarget old.now new.now under.now v) }
    ensures unfit { IfNone result (¬ (ArePlain new.now × AreMbr old.now under.now)) }
{
    let changed = change_records(under, old, new);
    if reads_as(&changed, new) {
        Some(changed)
    } else {
        None
    }
}

/// The first sector of the lone extended partition; 0 where there is none alone.
pub(crate) fn extended_first(records: &[Option<Record>; 4]) -> Lba
    ensures first { StartsAt (extended_of records.now) result.0 }
    ensures small { result.0 < 2 ^ 63 }
{
    match extended_of(records) {
        Extended::One(record) => Lba(u64::from(record.start)),
        _ => Lba(0),
    }
}
