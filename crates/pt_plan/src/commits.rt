//! Edits of a disk, from its layout to its sectors.

ghost use Rattle.std.specs.Prelude.{◌≡◌, ◌<◌, All, length, IfOk, IfErr};
ghost use Rattle.pt_sector.specs.Sectors.{IsSectorSize};
ghost use Rattle.pt_sector.specs.Device.{Blames};
ghost use Rattle.pt_sector.specs.Overlays.{OnlyReads};
ghost use Rattle.pt_apply.specs.Plans.{phases_of, InRange};
ghost use Rattle.pt_plan.specs.Batches.{Commits, IsPlanned, IsReady, IsRefusal, FailedInCommit, EditReads, CommitReads};
ghost use Rattle.pt_cases.specs.declared.primary.Primary.TheVariants.{Zeroed};
ghost use Rattle.pt_plan.specs.Commits.{commit_fault_in as fault_in, HidesNoFailure};

use crate::error::CommitError;
use crate::prepare::{checked_plan_wanted, plan_wanted};
use crate::wanted::Wanted;
use crate::writing::carry_out;
use pt_apply::Plan;
use pt_edit::Edit;
use pt_guid::Guid;
use pt_planner::Primary;
use pt_sector::Disk;
use std::alloc::Global;

/// The plan that leads from what the disk denotes to what the words make of it. Nothing is flushed or written. It is
/// refused as `commit` refuses, and `Check` is never reported; the checker is not asked, and accepts each such plan.
pub fn plan_for<const B: usize, D: Disk<B>>(
    alloc: Global,
    disk: &mut D,
    edits: &[Edit],
    guids: &[Guid],
) -> Result<Plan<B>, CommitError>
    requires size { IsSectorSize B }
    ensures same { OnlyReads D.Disk disk.old disk.new }
    ensures blames { Blames fault_in result (D.faults disk.old) (D.faults disk.new) }
    ensures place { D.tells → IfErr result
        (FailedInCommit (EditReads Zeroed B (D.count disk.old) (record { edits = edits.now; guids = guids.now }) (D.told disk.old).seen)) }
    ensures hides { IfErr result HidesNoFailure }
    ensures in_range { IfOk result (InRange (D.count disk.old)) }
    ensures phases { IfOk result (λ plan. All (λ p. 0 < length p.items) plan.phases.items) }
    ensures planned { D.tells → IfOk result
        (λ plan. IsPlanned Zeroed B (D.count disk.old) (record { edits = edits.now; guids = guids.now }) (D.told disk.old).seen
        (phases_of plan)) }
    ensures refused { D.tells → IfErr result
        (IsRefusal Zeroed B (D.count disk.old) (record { edits = edits.now; guids = guids.now }) (D.told disk.old).seen) }
{
    plan_wanted(alloc, disk, &Wanted::Edited(edits, guids), Primary::Zeroed)
}

/// The same plan, once the checker has accepted it. Nothing is flushed or written.
pub fn checked_plan_for<const B: usize, D: Disk<B>>(
    alloc: Global,
    disk: &mut D,
    edits: &[Edit],
    guids: &[Guid],
) -> Result<Plan<B>, CommitError>
    requires size { IsSectorSize B }
    ensures same { OnlyReads D.Disk disk.old disk.new }
    ensures blames { Blames fault_in result (D.faults disk.old) (D.faults disk.new) }
    ensures place { D.tells → IfErr result
        (FailedInCommit (CommitReads Zeroed B (D.count disk.old) (record { edits = edits.now; guids = guids.now })
        (D.told disk.old).seen)) }
    ensures hides { IfErr result HidesNoFailure }
    ensures in_range { IfOk result (InRange (D.count disk.old)) }
    ensures phases { IfOk result (λ plan. All (λ p. 0 < length p.items) plan.phases.items) }
    ensures ready { D.tells → IfOk result
        (λ plan. IsReady Zeroed B (D.count disk.old) (record { edits = edits.now; guids = guids.now }) (D.told disk.old).seen
        (phases_of plan)) }
    ensures refused { D.tells → IfErr result
        (IsRefusal Zeroed B (D.count disk.old) (record { edits = edits.now; guids = guids.now }) (D.told disk.old).seen) }
{
    checked_plan_wanted(alloc, disk, &Wanted::Edited(edits, guids), Primary::Zeroed)
}

/// Changes the disk's layout as the words say, each new GUID being the next of `guids`.
///
/// The disk is flushed first, so that what a read gives is durable; then a plan is made for the layout that the words
/// make of the disk's present one, checked, and applied phase by phase. Whatever was on the disk and whatever calls
/// went before: each disk that a crash within the call may leave denotes the layout before or the one that the words
/// make of it; after `Ok` it is the latter, nothing is pending, the disk is healthy, and a read gives what that plan makes
/// of what it gave before, to the byte; after every error but `Device`, and after `Device` for a read, the first flush was
/// done and nothing else. Outside the tables of both layouts, in the sectors that partitions of either own and in the boot
/// code (bytes 0 to 439 of sector 0) nothing changes.
pub fn commit<const B: usize, D: Disk<B>>(
    alloc: Global,
    disk: &mut D,
    edits: &[Edit],
    guids: &[Guid],
) -> Result<(), CommitError>
    requires size { IsSectorSize B }
    ensures count { D.count disk.new ≡ D.count disk.old }
    ensures name { D.name disk.new ≡ D.name disk.old }
    ensures blames { Blames fault_in result (D.faults disk.old) (D.faults disk.new) }
    ensures place { D.tells → IfErr result
        (FailedInCommit (CommitReads Zeroed B (D.count disk.old) (record { edits = edits.now; guids = guids.now })
        (D.told disk.old).seen)) }
    ensures hides { IfErr result HidesNoFailure }
    ensures commits { D.tells → Commits Zeroed B (D.count disk.old) (record { edits = edits.now; guids = guids.now }) result
        (D.told disk.old) (D.told disk.new) }
{
    carry_out(alloc, disk, &Wanted::Edited(edits, guids), Primary::Zeroed)
}
