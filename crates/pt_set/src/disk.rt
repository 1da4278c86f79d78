//! A disk that takes the table of a draft.

ghost use Rattle.std.specs.Prelude.{◌≡◌, ◌<◌, All, IfOk, IfErr, length};
ghost use Rattle.pt_sector.specs.Sectors.{IsSectorSize};
ghost use Rattle.pt_sector.specs.Device.{Blames};
ghost use Rattle.pt_sector.specs.Overlays.{OnlyReads};
ghost use Rattle.pt_apply.specs.Plans.{phases_of, InRange};
ghost use Rattle.pt_recover.specs.Denotes.{Denotes};
ghost use Rattle.pt_plan.specs.Commits.{commit_fault_in, HidesNoFailure};
ghost use Rattle.pt_set.specs.inner.Wanting.{NotWanted};
ghost use Rattle.pt_set.specs.Sets.{Becomes, IsPlanFor, IsUnread, IsWanted, NotPlanned, SetHidesNoFailure, set_fault_in};

use crate::error::SetError;
use crate::table::table_for;
use pt_apply::Plan;
use pt_drafts::Draft;
use pt_guid::Guid;
use pt_layout::{Layout, NoTable, recover};
use pt_plan::{CommitError, Primary, Wanted, commit_wanted, plan_wanted};
use pt_sector::{Disk, Fault};
use std::alloc::Global;

// What the disk denotes, or nothing.
fn known<const B: usize, D: Disk<B>>(
    alloc: Global,
    disk: &mut D,
) -> Result<Option<Layout>, CommitError>
    requires size { IsSectorSize B }
    ensures same { OnlyReads D.Disk disk.old disk.new }
    ensures blames { Blames commit_fault_in result (D.faults disk.old) (D.faults disk.new) }
    ensures ok { D.tells → IfOk result (λ o. Denotes B (D.told disk.old).seen o) }
    ensures hides { IfErr result HidesNoFailure }
    ensures err { IfErr result IsUnread }
{
    match recover::<B, D>(alloc, disk) {
        Ok(layout) => Ok(Some(layout)),
        Err(NoTable::Device(at)) => Err(CommitError::Device(Fault::Read(at))),
        Err(NoTable::Memory) => Err(CommitError::Memory),
        Err(_) => Ok(None),
    }
}

// The layout that the draft makes of what the disk denotes.
fn wanted<const B: usize, D: Disk<B>>(
    alloc: Global,
    disk: &mut D,
    draft: &Draft,
    fresh: &[Guid],
) -> Result<Layout, SetError>
    requires size { IsSectorSize B }
    ensures same { OnlyReads D.Disk disk.old disk.new }
    ensures blames { Blames set_fault_in result (D.faults disk.old) (D.faults disk.new) }
    ensures hides { IfErr result SetHidesNoFailure }
    ensures ok { D.tells → IfOk result (IsWanted B (D.count disk.old) (D.told disk.old).seen fresh.now draft.now) }
    ensures err { D.tells → IfErr result (NotWanted B (D.count disk.old) (D.told disk.old).seen fresh.now draft.now) }
{
    let sectors = disk.sectors();
    let old = known::<B, D>(alloc, disk)?;
    Ok(table_for::<B>(alloc, draft, sectors, old.as_ref(), fresh)?)
}

/// The plan that makes the disk healthy with the table of a draft: without phases where it is so already. Nothing is flushed or written.
///
/// The error is the draft's first fault, what hinders a plan, or a failure.
pub fn plan_draft<const B: usize, D: Disk<B>>(
    alloc: Global,
    disk: &mut D,
    draft: &Draft,
    fresh: &[Guid],
    primary: Primary,
) -> Result<Plan<B>, SetError>
    requires size { IsSectorSize B }
    ensures same { OnlyReads D.Disk disk.old disk.new }
    ensures blames { Blames set_fault_in result (D.faults disk.old) (D.faults disk.new) }
    ensures in_range { IfOk result (InRange (D.count disk.old)) }
    ensures phases { IfOk result (λ plan. All (λ p. 0 < length p.items) plan.phases.items) }
    ensures planned { D.tells → IfOk result
        (λ plan. IsPlanFor primary B (D.count disk.old) (D.told disk.old).seen fresh.now draft.now (phases_of plan)) }
    ensures refused { D.tells → IfErr result
        (NotPlanned primary B (D.count disk.old) (D.told disk.old).seen fresh.now draft.now) }
{
    let wanted = wanted::<B, D>(alloc, disk, draft, fresh)?;
    Ok(plan_wanted(alloc, disk, &Wanted::Layout(&wanted), primary)?)
}

/// Makes the disk healthy with the table of a draft, as [`commit_layout`](pt_plan::commit_layout) does with a layout: a stop at any moment
/// leaves the old table or the new one.
///
/// The error is the draft's first fault, and then the disk was only read; or what the commit reported.
pub fn commit_draft<const B: usize, D: Disk<B>>(
    alloc: Global,
    disk: &mut D,
    draft: &Draft,
    fresh: &[Guid],
    primary: Primary,
) -> Result<(), SetError>
    requires size { IsSectorSize B }
    ensures count { D.count disk.new ≡ D.count disk.old }
    ensures name { D.name disk.new ≡ D.name disk.old }
    ensures blames { Blames set_fault_in result (D.faults disk.old) (D.faults disk.new) }
    ensures hides { IfErr result SetHidesNoFailure }
    ensures becomes { D.tells → Becomes primary B (D.count disk.old) fresh.now draft.now result (D.told disk.old) (D.told disk.new) }
{
    let wanted = wanted::<B, D>(alloc, disk, draft, fresh)?;
    Ok(commit_wanted(alloc, disk, &Wanted::Layout(&wanted), primary)?)
}
