//! Sector 0 and the extended boot records of a wanted MBR layout: what each must hold.
mod ebrs;
mod head;

ghost use Rattle.std.specs.Prelude.{◌≡◌, ◌<◌, ◌^◌, ◌↔◌, ◌⊎◌, ◌++◌, ◌∷◌, [], All, Contains, IfOk, IfErr, OnOk, IfSome, IfNone, IsTrue};
ghost use Rattle.std.specs.Prelude.{IsFalse};
ghost use Rattle.pt_sector.specs.Device.{Blames};
ghost use Rattle.pt_sector.specs.Overlays.{OnlyReads, FailedIn, fault_of};
ghost use Rattle.pt_sector.specs.Sectors.{IsSectorSize};
ghost use Rattle.pt_mbr.specs.Chain.{StandsAt};
ghost use Rattle.pt_mbr.specs.declared.ebr.Ebr.{Ebr};
ghost use Rattle.pt_mbr.specs.Records.{extended_of};
ghost use Rattle.pt_cases.specs.Writes.{IsLoneChain};
ghost use Rattle.pt_cases.specs.Targets.{AreMbrTargets};
ghost use Rattle.pt_cases.specs.declared.targets.target.Target.{Target};
ghost use Rattle.pt_cases.specs.Unplanned.{HasUnmade, HasUnmadeEbr, IsUnmadeHead, IsUnmadeEbr};
ghost use Rattle.pt_planner.specs.inner.Places.{Adds, IsHeadOf, IsEbrOf, AreChainTargets};
ghost use Rattle.pt_planner.specs.Places.{IsHeadOrEbr};

use crate::chains::ebrs::{ebr_made, ebr_over};
use crate::chains::head::{extended_first, head_target};
pub use ebrs::is_linked;
use pt_cases::targets::{Target, TargetKind};
use pt_mbr::{Ebr, Record};
use pt_recover::Ebrs;
use pt_sector::{Disk, Failure, Lba, read_sector};
use std::alloc::{AllocError, Global};

// Whether one of them stands there.
fn stands_at(chain: &[Ebr], at: Lba) -> bool
    ensures { IsTrue result ↔ StandsAt at.0 chain.now }
{
    for k in 0..chain.len() {
        if chain[k].at == at {
            return true;
        }
    }
    false
}

fn push_target<const B: usize>(
    targets: &mut Vec<Target<B>>,
    target: Target<B>,
) -> Result<(), AllocError>
    ensures { OnOk result (targets.new.items ≡ targets.old.items ++ target.entry ∷ []) }
{
    targets.push(target)?;
    Ok(())
}

// Adds the target of sector 0; false where no bytes would do.
fn push_head<const B: usize, D: Disk<B>>(
    disk: &mut D,
    targets: &mut Vec<Target<B>>,
    old: &[Option<Record>; 4],
    new: &[Option<Record>; 4],
) -> Result<bool, Failure>
    requires size { IsSectorSize B }
    requires some { 0 < D.count disk.old }
    ensures same { OnlyReads D.Disk disk.old disk.new }
    ensures blames { Blames fault_of result (D.faults disk.old) (D.faults disk.new) }
    ensures failed { IfErr result (FailedIn (λ s. s ≡ 0)) }
    ensures added { IfOk result (λ good. IsTrue good → Adds targets.old.items targets.new.items
        (λ t. (t.at.0 ≡ 0) × (D.tells → IsHeadOf (D.told disk.old).seen old.now new.now t))) }
    ensures none { D.tells → IfOk result (λ good. IsFalse good → IsUnmadeHead (D.told disk.old).seen old.now new.now) }
{
    let mut under = [0; B];
    read_sector(disk, Lba(0), &mut under)?;
    match head_target(&under, old, new) {
        Some(bytes) => {
            let target = Target {
                at: Lba(0),
                bytes,
                under,
                kind: TargetKind::Changes,
            };
            push_target(targets, target)?;
            Ok(true)
        }
        None => Ok(false),
    }
}

// Adds the target of an extended boot record, with those behind it; false where no bytes would do.
fn push_ebr<const B: usize, D: Disk<B>>(
    disk: &mut D,
    targets: &mut Vec<Target<B>>,
    old: &[Ebr],
    first: Lba,
    ebr: &Ebr,
    rest: &[Ebr],
) -> Result<bool, Failure>
    requires size { IsSectorSize B }
    requires small { first.0 < 2 ^ 63 }
    requires within { ebr.now.at.0 < D.count disk.old }
    ensures same { OnlyReads D.Disk disk.old disk.new }
    ensures blames { Blames fault_of result (D.faults disk.old) (D.faults disk.new) }
    ensures failed { IfErr result (FailedIn (λ s. s ≡ ebr.now.at.0)) }
    ensures added { IfOk result (λ good. IsTrue good → Adds targets.old.items targets.new.items
        (λ t. (t.at.0 ≡ ebr.now.at.0) × (D.tells → IsEbrOf (D.told disk.old).seen old.now first.0 ebr.now rest.now t))) }
    ensures none { D.tells → IfOk result
        (λ good. IsFalse good → IsUnmadeEbr B (D.told disk.old).seen old.now first.0 ebr.now rest.now) }
{
    let mut under = [0; B];
    read_sector(disk, ebr.at, &mut under)?;
    let found = if stands_at(old, ebr.at) {
        ebr_over(&under, first, ebr, rest)
    } else {
        ebr_made(first, ebr, rest)
    };
    match found {
        Some(bytes) => {
            let target = Target {
                at: ebr.at,
                bytes,
                under,
                kind: TargetKind::Changes,
            };
            push_target(targets, target)?;
            Ok(true)
        }
        None => Ok(false),
    }
}

// Adds the targets of a chain in an extended partition from `first` on, behind that of sector 0; false where no bytes
// would do for one of these.
fn push_chain<const B: usize, D: Disk<B>>(
    disk: &mut D,
    targets: &mut Vec<Target<B>>,
    old: &[Ebr],
    first: Lba,
    chain: &[Ebr],
) -> Result<bool, Failure>
    requires size { IsSectorSize B }
    requires small { first.0 < 2 ^ 63 }
    requires within { All (λ e. e.at.0 < D.count disk.old) chain.now }
    ensures same { OnlyReads D.Disk disk.old disk.new }
    ensures blames { Blames fault_of result (D.faults disk.old) (D.faults disk.new) }
    ensures failed { IfErr result (FailedIn (λ s. StandsAt s chain.now)) }
    ensures place { IfOk result (λ good. IsTrue good → (head : Target B) → targets.old.items ≡ head ∷ []
        → (t : Target B) → Contains targets.new.items t → (t.at.0 ≡ head.at.0) ⊎ StandsAt t.at.0 chain.now) }
    ensures some { D.tells → IfOk result (λ good. IsTrue good → (head : Target B) → targets.old.items ≡ head ∷ []
        → AreChainTargets (D.told disk.old).seen head old.now first.0 chain.now targets.new.items) }
    ensures none { D.tells → IfOk result (λ good. IsFalse good → HasUnmadeEbr B (D.told disk.old).seen old.now first.0 chain.now) }
{
    for k in 0..chain.len() {
        if !push_ebr(disk, targets, old, first, &chain[k], &chain[k + 1..])? {
            return Ok(false);
        }
    }
    Ok(true)
}

/// What sector 0 and the extended boot records must hold for these records and this chain, on an MBR disk that has the
/// old ones: first that of sector 0, then those of the chain in its order. None where no bytes would do for one of them:
/// its sector isn't as the old ones say, or what is wanted there isn't read again as it is written.
///
/// A record that stays keeps its bytes, and one that becomes unused is zeros. A link is written anew where it would lead
/// elsewhere from the wanted extended partition's first sector, with the low 32 bits of its start and of its size; what
/// then doesn't read as wanted has no target. An extended boot record that isn't in the old chain stands over zeros,
/// whatever its sector held. An `Err` is a failed read, or memory that was refused.
pub fn mbr_targets<const B: usize, D: Disk<B>>(
    alloc: Global,
    disk: &mut D,
    old_records: &[Option<Record>; 4],
    old_chain: &Ebrs,
    records: &[Option<Record>; 4],
    chain: &Ebrs,
) -> Result<Option<Vec<Target<B>>>, Failure>
    requires size { IsSectorSize B }
    requires linked { IsLoneChain (D.count disk.old) (extended_of records.now) chain.now }
    requires some { 0 < D.count disk.old }
    ensures same { OnlyReads D.Disk disk.old disk.new }
    ensures blames { Blames fault_of result (D.faults disk.old) (D.faults disk.new) }
    ensures failed { IfErr result (FailedIn (IsHeadOrEbr chain.now)) }
    ensures in_range { IfOk result (λ o. IfSome o (λ ts. (t : Target B) → Contains ts.items t → t.at.0 < D.count disk.old)) }
    ensures some { D.tells → IfOk result
        (λ o. IfSome o (λ ts. AreMbrTargets (D.told disk.old).seen old_records.now old_chain.now records.now chain.now ts.items)) }
    ensures none { D.tells → IfOk result
        (λ o. IfNone o (HasUnmade B (D.told disk.old).seen old_records.now old_chain.now records.now chain.now)) }
{
    let mut targets = Vec::new(alloc);
    if !push_head(disk, &mut targets, old_records, records)? {
        return Ok(None);
    }
    if !push_chain(
        disk,
        &mut targets,
        old_chain.as_slice(),
        extended_first(records),
        chain.as_slice(),
    )? {
        return Ok(None);
    }
    Ok(Some(targets))
}
