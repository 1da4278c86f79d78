//! Repairs of a disk, which keep its layout.

ghost use Rattle.std.specs.Prelude.{◌≡◌, ◌<◌, All, length, IfOk, IfErr};
ghost use Rattle.pt_sector.specs.Sectors.{IsSectorSize};
ghost use Rattle.pt_sector.specs.Device.{Blames};
ghost use Rattle.pt_sector.specs.Overlays.{OnlyReads};
ghost use Rattle.pt_apply.specs.Plans.{phases_of, InRange};
ghost use Rattle.pt_cases.specs.declared.primary.Primary.TheVariants.{Zeroed};
ghost use Rattle.pt_plan.specs.Batches.{IsMendPlan, IsReadyToMend, IsMendRefusal, Repairs, FailedInRepair, MendReads, RepairReads};
ghost use Rattle.pt_plan.specs.Repairs.{repair_fault_in as fault_in, MendHidesNoFailure};

use crate::prepare::{checked_plan_wanted, plan_wanted};
use crate::repair_error::{RepairError, told};
use crate::wanted::Wanted;
use crate::writing::carry_out;
use pt_apply::Plan;
use pt_planner::Primary;
use pt_sector::Disk;
use std::alloc::Global;

/// The plan that makes the disk healthy with the layout that it denotes: without phases where it is so already. Nothing
/// is flushed or written. It is refused as `repair` refuses, and `Plan` and `Check` are never reported; the checker is not
/// asked, and accepts each such plan.
pub fn plan_for_repair<const B: usize, D: Disk<B>>(
    alloc: Global,
    disk: &mut D,
) -> Result<Plan<B>, RepairError>
    requires size { IsSectorSize B }
    ensures same { OnlyReads D.Disk disk.old disk.new }
    ensures blames { Blames fault_in result (D.faults disk.old) (D.faults disk.new) }
    ensures place { D.tells → IfErr result (FailedInRepair (MendReads Zeroed B (D.count disk.old) (D.told disk.old).seen)) }
    ensures hides { IfErr result MendHidesNoFailure }
    ensures in_range { IfOk result (InRange (D.count disk.old)) }
    ensures phases { IfOk result (λ plan. All (λ p. 0 < length p.items) plan.phases.items) }
    ensures planned { D.tells → IfOk result (λ plan. IsMendPlan Zeroed B (D.told disk.old).seen (phases_of plan)) }
    ensures refused { D.tells → IfErr result (IsMendRefusal B (D.told disk.old).seen) }
{
    plan_for_repair_by(alloc, disk, Primary::Zeroed)
}

/// The same, by what becomes of the primary copy.
pub fn plan_for_repair_by<const B: usize, D: Disk<B>>(
    alloc: Global,
    disk: &mut D,
    primary: Primary,
) -> Result<Plan<B>, RepairError>
    requires size { IsSectorSize B }
    ensures same { OnlyReads D.Disk disk.old disk.new }
    ensures blames { Blames fault_in result (D.faults disk.old) (D.faults disk.new) }
    ensures place { D.tells → IfErr result (FailedInRepair (MendReads primary B (D.count disk.old) (D.told disk.old).seen)) }
    ensures hides { IfErr result MendHidesNoFailure }
    ensures in_range { IfOk result (InRange (D.count disk.old)) }
    ensures phases { IfOk result (λ plan. All (λ p. 0 < length p.items) plan.phases.items) }
    ensures planned { D.tells → IfOk result (λ plan. IsMendPlan primary B (D.told disk.old).seen (phases_of plan)) }
    ensures refused { D.tells → IfErr result (IsMendRefusal B (D.told disk.old).seen) }
{
    match plan_wanted(alloc, disk, &Wanted::Own, primary) {
        Ok(plan) => Ok(plan),
        Err(error) => Err(told(error)),
    }
}

/// The same plan, once the checker has accepted it. Nothing is flushed or written.
pub fn checked_plan_for_repair<const B: usize, D: Disk<B>>(
    alloc: Global,
    disk: &mut D,
) -> Result<Plan<B>, RepairError>
    requires size { IsSectorSize B }
    ensures same { OnlyReads D.Disk disk.old disk.new }
    ensures blames { Blames fault_in result (D.faults disk.old) (D.faults disk.new) }
    ensures place { D.tells → IfErr result (FailedInRepair (RepairReads Zeroed B (D.count disk.old) (D.told disk.old).seen)) }
    ensures hides { IfErr result MendHidesNoFailure }
    ensures in_range { IfOk result (InRange (D.count disk.old)) }
    ensures phases { IfOk result (λ plan. All (λ p. 0 < length p.items) plan.phases.items) }
    ensures ready { D.tells → IfOk result (λ plan. IsReadyToMend Zeroed B (D.told disk.old).seen (phases_of plan)) }
    ensures refused { D.tells → IfErr result (IsMendRefusal B (D.told disk.old).seen) }
{
    checked_plan_for_repair_by(alloc, disk, Primary::Zeroed)
}

/// The same, by what becomes of the primary copy.
pub fn checked_plan_for_repair_by<const B: usize, D: Disk<B>>(
    alloc: Global,
    disk: &mut D,
    primary: Primary,
) -> Result<Plan<B>, RepairError>
    requires size { IsSectorSize B }
    ensures same { OnlyReads D.Disk disk.old disk.new }
    ensures blames { Blames fault_in result (D.faults disk.old) (D.faults disk.new) }
    ensures place { D.tells → IfErr result (FailedInRepair (RepairReads primary B (D.count disk.old) (D.told disk.old).seen)) }
    ensures hides { IfErr result MendHidesNoFailure }
    ensures in_range { IfOk result (InRange (D.count disk.old)) }
    ensures phases { IfOk result (λ plan. All (λ p. 0 < length p.items) plan.phases.items) }
    ensures ready { D.tells → IfOk result (λ plan. IsReadyToMend primary B (D.told disk.old).seen (phases_of plan)) }
    ensures refused { D.tells → IfErr result (IsMendRefusal B (D.told disk.old).seen) }
{
    match checked_plan_wanted(alloc, disk, &Wanted::Own, primary) {
        Ok(plan) => Ok(plan),
        Err(error) => Err(told(error)),
    }
}

/// Makes the disk healthy, and keeps its layout: both copies of a GPT and the protective record are written anew.
///
/// The disk is flushed first, so that what a read gives is durable; then a plan is made for the layout that the disk
/// denotes, checked, and applied phase by phase. Whatever was on the disk and whatever calls went before: each disk that
/// a crash within the call may leave denotes that layout; after `Ok` nothing is pending, the disk is healthy, and a read
/// gives what that plan makes of what it gave before, to the byte. On a healthy disk nothing is written. After every error
/// but `Device`, and after `Device` for a read, the first flush was done and nothing else. Sectors that partitions own, the
/// boot code (bytes 0 to 439 of sector 0) and all that is no table stay.
pub fn repair<const B: usize, D: Disk<B>>(alloc: Global, disk: &mut D) -> Result<(), RepairError>
    requires size { IsSectorSize B }
    ensures count { D.count disk.new ≡ D.count disk.old }
    ensures name { D.name disk.new ≡ D.name disk.old }
    ensures blames { Blames fault_in result (D.faults disk.old) (D.faults disk.new) }
    ensures place { D.tells → IfErr result (FailedInRepair (RepairReads Zeroed B (D.count disk.old) (D.told disk.old).seen)) }
    ensures hides { IfErr result MendHidesNoFailure }
    ensures repairs { D.tells → Repairs Zeroed B (D.count disk.old) result (D.told disk.old) (D.told disk.new) }
{
    repair_by(alloc, disk, Primary::Zeroed)
}

/// The same, by what becomes of the primary copy.
pub fn repair_by<const B: usize, D: Disk<B>>(
    alloc: Global,
    disk: &mut D,
    primary: Primary,
) -> Result<(), RepairError>
    requires size { IsSectorSize B }
    ensures count { D.count disk.new ≡ D.count disk.old }
    ensures name { D.name disk.new ≡ D.name disk.old }
    ensures blames { Blames fault_in result (D.faults disk.old) (D.faults disk.new) }
    ensures place { D.tells → IfErr result (FailedInRepair (RepairReads primary B (D.count disk.old) (D.told disk.old).seen)) }
    ensures hides { IfErr result MendHidesNoFailure }
    ensures repairs { D.tells → Repairs primary B (D.count disk.old) result (D.told disk.old) (D.told disk.new) }
{
    match carry_out(alloc, disk, &Wanted::Own, primary) {
        Ok(()) => Ok(()),
        Err(error) => Err(told(error)),
    }
}
