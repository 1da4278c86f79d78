//! Records that change in a sector, or stand in a new one.

ghost use Rattle.std.specs.Prelude.{◌≡◌, ◌≢◌, ◌<◌, ◌≤◌, ◌⊎◌, ◌+◌, ℕ, None, Some, IfSome, IfNone, get_or, take, slice_index, slice_range};
ghost use Rattle.pt_sector.specs.Sectors.{IsSectorSize};
ghost use Rattle.pt_mbr.specs.Records.{HasSignature, record_bytes, MbrBytes, BearsProtective};
ghost use Rattle.pt_mbr.specs.Chain.{EbrBytes};
ghost use Rattle.pt_mbr.specs.Changes.{mbr_of, reach_of, IsChanged, ArePlain, IsPlainLogical, LinksTo, IsLink, FitsLink};
ghost use Rattle.pt_mbr.specs.inner.Changes.{IsStep};

use crate::ebr::Ebr;
use crate::encode::put_value;
use crate::mbr::put_part;
use crate::record::{FARTHEST, Record};
use pt_sector::{Lba, Sector};

// Record k written as the new one, where it isn't the old one.
fn change_record<const B: usize>(
    sector: &Sector<B>,
    k: usize,
    old: Option<Record>,
    new: Option<Record>,
) -> Sector<B>
    requires size { IsSectorSize B }
    requires place { k < 4 }
    ensures { IsStep (old ≡ new) new k sector.now result }
{
    if old == new {
        *sector
    } else {
        put_value(sector, k, new)
    }
}

/// The sector with the records that change from `old` to `new` written: 16 zero bytes for one that goes, and no byte of
/// one that stays.
pub fn change_records<const B: usize>(
    sector: &Sector<B>,
    old: &[Option<Record>; 4],
    new: &[Option<Record>; 4],
) -> Sector<B>
    requires size { IsSectorSize B }
    ensures other { (i : ℕ) → (i < 446) ⊎ (510 ≤ i) → slice_index result i ≡ slice_index sector.now i }
    ensures boot { take 440 result ≡ take 440 sector.now }
    ensures each { (k : ℕ) → k < 4 → IsChanged (get_or old.now k None ≡ get_or new.now k None) (get_or new.now k None) k sector.now result }
    ensures read { ArePlain new.now → MbrBytes (mbr_of old.now) sector.now → MbrBytes (mbr_of new.now) result }
    ensures plain { ArePlain new.now → ¬ BearsProtective sector.now → ¬ BearsProtective result }
{
    let changed = change_record(sector, 0, old[0], new[0]);
    let changed = change_record(&changed, 1, old[1], new[1]);
    let changed = change_record(&changed, 2, old[2], new[2]);
    change_record(&changed, 3, old[3], new[3])
}

// The link written, where it leads elsewhere.
fn change_link<const B: usize>(
    sector: &Sector<B>,
    old: Option<Lba>,
    new: Option<Lba>,
    link: Option<Record>,
) -> Sector<B>
    requires { IsSectorSize B }
    ensures { IsStep (old ≡ new) link 1 sector.now result }
{
    if old == new {
        *sector
    } else {
        put_value(sector, 1, link)
    }
}

/// The sector of the extended boot record `old` as that of `new`, which stands in the same place: the logical partition
/// is written where it changes, and `link` where the next one is another.
///
/// `link` is the record that leads to the next one, as [`link_to`] gives it, and none at the chain's end.
pub fn change_ebr<const B: usize>(
    sector: &Sector<B>,
    old: &Ebr,
    new: &Ebr,
    link: &Option<Record>,
) -> Sector<B>
    requires size { IsSectorSize B }
    ensures other { (i : ℕ) → (i < 446) ⊎ (478 ≤ i) → slice_index result i ≡ slice_index sector.now i }
    ensures logical { IsChanged (old.now.logical ≡ new.now.logical) new.now.logical 0 sector.now result }
    ensures link { IsChanged (old.now.next ≡ new.now.next) link.now 1 sector.now result }
    ensures read { (first : ℕ) → (old.now.next ≢ new.now.next → LinksTo first new.now.next link.now)
        → IsPlainLogical new.now.logical → EbrBytes first new.now.at old.now sector.now → EbrBytes first new.now.at new.now result }
{
    let changed = change_record(sector, 0, old.logical, new.logical);
    change_link(&changed, old.next, new.next, *link)
}

/// The sector of an extended boot record where none stood: zeros, its logical partition, `link`, and the signature.
pub fn new_ebr<const B: usize>(ebr: &Ebr, link: &Option<Record>) -> Sector<B>
    requires size { IsSectorSize B }
    ensures zeros { (i : ℕ) → (i < 446) ⊎ ((478 ≤ i) × (i < 510)) ⊎ (512 ≤ i) → slice_index result i ≡ 0 }
    ensures logical { slice_range result 446 462 ≡ record_bytes ebr.now.logical }
    ensures link { slice_range result 462 478 ≡ record_bytes link.now }
    ensures signature { HasSignature result }
    ensures read { (first : ℕ) → LinksTo first ebr.now.next link.now → IsPlainLogical ebr.now.logical
        → EbrBytes first ebr.now.at ebr.now result }
{
    let sector = put_part(&[0; B], 510, &[0x55, 0xAA]);
    let sector = put_value(&sector, 0, ebr.logical);
    put_value(&sector, 1, *link)
}

/// How many sectors there are from an extended boot record to the end of its logical partition; 1 where it has none.
pub fn reach_of(logical: &Option<Record>) -> u64
    ensures { result ≡ reach_of logical.now }
{
    match logical {
        Some(part) => u64::from(part.start) + u64::from(part.size),
        None => 1,
    }
}

/// The record of a link to `next`, in an extended partition whose first sector is `first`: from `next` to the end of its
/// logical partition, of one sector where it has none.
///
/// None where the start or the size has more than 32 bits, or the size is 0.
pub fn link_to(first: Lba, next: &Ebr) -> Option<Record>
    ensures some { IfSome result (λ r. IsLink first.0 next.now r) }
    ensures leads { IfSome result (λ r. LinksTo first.0 (Some next.now.at) (Some r)) }
    ensures none { IfNone result (¬ FitsLink first.0 next.now) }
{
    let size = reach_of(&next.logical);
    if next.at.0 < first.0 || next.at.0 - first.0 > 0xFFFF_FFFF || size == 0 || size > 0xFFFF_FFFF {
        return None;
    }
    Some(Record {
        boot: 0,
        start_chs: FARTHEST,
        kind: 0x05,
        end_chs: FARTHEST,
        start: (next.at.0 - first.0) as u32,
        size: size as u32,
    })
}
