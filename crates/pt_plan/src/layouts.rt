//! Commits of a layout, wherever that comes from.

ghost use Rattle.std.specs.Prelude.{◌≡◌, ◌<◌, All, length, IfOk, IfErr};
ghost use Rattle.pt_sector.specs.Sectors.{IsSectorSize};
ghost use Rattle.pt_sector.specs.Device.{Blames};
ghost use Rattle.pt_sector.specs.Overlays.{OnlyReads};
ghost use Rattle.pt_apply.specs.Plans.{phases_of, InRange};
ghost use Rattle.pt_planner.specs.PlanReads.{FailedInPlan, MakeReadsBy};
ghost use Rattle.pt_cases.specs.NewMbr.{UnplannedBy};
ghost use Rattle.pt_cases.specs.Unplanned.{fault_in as plan_fault_in};
ghost use Rattle.pt_cases.specs.declared.primary.Primary.TheVariants.{Kept};
ghost use Rattle.pt_plan.specs.Layouts.{CommitsLayout, IsAccepted, IsReadyFor, IsRefusalOf};
ghost use Rattle.pt_plan.specs.Batches.{FailedInCommit, LayoutReads};
ghost use Rattle.pt_plan.specs.Commits.{commit_fault_in as fault_in, HidesNoFailure};

use crate::error::CommitError;
use crate::prepare::checked_plan_wanted;
use crate::wanted::Wanted;
use crate::writing::carry_out;
use pt_apply::Plan;
use pt_layout::Layout;
use pt_planner::{PlanError, Primary, make_plan_by};
use pt_sector::Disk;
use std::alloc::Global;

/// The plan that makes the disk healthy with the wanted layout, wherever that comes from: without phases where it is so
/// already. The primary copy is kept; [`make_plan`] zeroes it. Nothing is flushed or written. The checker is not asked, and accepts
/// each such plan.
pub fn plan_for_layout<const B: usize, D: Disk<B>>(
    alloc: Global,
    disk: &mut D,
    wanted: &Layout,
) -> Result<Plan<B>, PlanError>
    requires size { IsSectorSize B }
    ensures same { OnlyReads D.Disk disk.old disk.new }
    ensures blames { Blames plan_fault_in result (D.faults disk.old) (D.faults disk.new) }
    ensures place { D.tells → IfErr result (FailedInPlan (MakeReadsBy Kept B (D.told disk.old).seen wanted.now)) }
    ensures in_range { IfOk result (InRange (D.count disk.old)) }
    ensures phases { IfOk result (λ plan. All (λ p. 0 < length p.items) plan.phases.items) }
    ensures accepted { D.tells → IfOk result (λ plan. IsAccepted Kept B wanted.now (D.told disk.old).seen (phases_of plan)) }
    ensures refused { D.tells → IfErr result (UnplannedBy Kept B (D.told disk.old).seen wanted.now) }
{
    make_plan_by(alloc, disk, wanted, Primary::Kept)
}

/// The same plan, once the checker has accepted it. Nothing is flushed or written. `NoTable`, `Edit` and `Check` are never
/// reported.
pub fn checked_plan_for_layout<const B: usize, D: Disk<B>>(
    alloc: Global,
    disk: &mut D,
    wanted: &Layout,
) -> Result<Plan<B>, CommitError>
    requires size { IsSectorSize B }
    ensures same { OnlyReads D.Disk disk.old disk.new }
    ensures blames { Blames fault_in result (D.faults disk.old) (D.faults disk.new) }
    ensures place { D.tells → IfErr result (FailedInCommit (LayoutReads Kept B wanted.now (D.told disk.old).seen)) }
    ensures hides { IfErr result HidesNoFailure }
    ensures in_range { IfOk result (InRange (D.count disk.old)) }
    ensures phases { IfOk result (λ plan. All (λ p. 0 < length p.items) plan.phases.items) }
    ensures ready { D.tells → IfOk result
        (λ plan. IsReadyFor Kept B (D.count disk.old) wanted.now (D.told disk.old).seen (phases_of plan)) }
    ensures refused { D.tells → IfErr result (IsRefusalOf Kept B (D.count disk.old) wanted.now (D.told disk.old).seen) }
{
    checked_plan_wanted(alloc, disk, &Wanted::Layout(wanted), Primary::Kept)
}

/// Makes the disk healthy with the wanted layout, wherever that comes from. The primary copy is kept;
/// [`commit_wanted`](crate::commit_wanted) has the choice.
///
/// The disk is flushed first, so that what a read gives is durable; then a plan is made for the layout, checked, and
/// applied phase by phase. Whatever was on the disk and whatever calls went before: each disk that a crash within the
/// call may leave denotes what it denoted before, be it nothing, or the wanted layout; after `Ok` it is the latter,
/// nothing is pending, the disk is healthy, and a read gives what that plan makes of what it gave before, to the byte; after
/// every error but `Device`, and after `Device` for a read, the first flush was done and nothing else. Outside the tables of
/// both layouts, in the sectors that partitions of either own and in the boot code (bytes 0 to 439 of sector 0) nothing
/// changes. `NoTable`, `Edit` and `Check` are never reported. There is no plan ([`PlanError::NotOneSwitch`]) for a sound layout
/// with another number of sectors than the disk's.
pub fn commit_layout<const B: usize, D: Disk<B>>(
    alloc: Global,
    disk: &mut D,
    wanted: &Layout,
) -> Result<(), CommitError>
    requires size { IsSectorSize B }
    ensures count { D.count disk.new ≡ D.count disk.old }
    ensures name { D.name disk.new ≡ D.name disk.old }
    ensures blames { Blames fault_in result (D.faults disk.old) (D.faults disk.new) }
    ensures place { D.tells → IfErr result (FailedInCommit (LayoutReads Kept B wanted.now (D.told disk.old).seen)) }
    ensures hides { IfErr result HidesNoFailure }
    ensures commits { D.tells → CommitsLayout Kept B (D.count disk.old) wanted.now result (D.told disk.old) (D.told disk.new) }
{
    carry_out(alloc, disk, &Wanted::Layout(wanted), Primary::Kept)
}
