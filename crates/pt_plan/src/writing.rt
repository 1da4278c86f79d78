//! The steps of every commit and of a repair: a flush, a checked plan, and its writes.

ghost use Rattle.std.specs.Prelude.{◌≡◌, IfErr};
ghost use Rattle.pt_sector.specs.Sectors.{IsSectorSize};
ghost use Rattle.pt_sector.specs.Device.{Blames};
ghost use Rattle.pt_plan.specs.Commits.{commit_fault_in as fault_in, HidesNoFailure};
ghost use Rattle.pt_plan.specs.Batches.{FailedInCommit};
ghost use Rattle.pt_plan.specs.Wanted.{IsReadyOf, IsRefusedBy, WriteOfReads, CommitsWanted};
ghost use Rattle.pt_plan.specs.inner.Commits.{Written};

use crate::error::CommitError;
use crate::prepare::checked_plan_wanted;
use crate::wanted::Wanted;
use pt_apply::apply;
use pt_planner::Primary;
use pt_sector::Disk;
use std::alloc::Global;

/// Flushes the disk, so that what a read gives is durable; makes a plan for what is wanted, and checks it; and applies it
/// phase by phase.
pub(crate) fn carry_out<const B: usize, D: Disk<B>>(
    alloc: Global,
    disk: &mut D,
    wanted: &Wanted,
    primary: Primary,
) -> Result<(), CommitError>
    requires size { IsSectorSize B }
    ensures count { D.count disk.new ≡ D.count disk.old }
    ensures name { D.name disk.new ≡ D.name disk.old }
    ensures blames { Blames fault_in result (D.faults disk.old) (D.faults disk.new) }
    ensures place { D.tells → IfErr result
        (FailedInCommit (WriteOfReads primary B (D.count disk.old) wanted.now (D.told disk.old).seen)) }
    ensures hides { IfErr result HidesNoFailure }
    ensures written { D.tells → Written (IsReadyOf primary B (D.count disk.old) wanted.now)
        (IsRefusedBy primary B (D.count disk.old) wanted.now) result
        (D.told disk.old) (D.told disk.new) }
{
    disk.flush()?;
    let plan = checked_plan_wanted(alloc, disk, wanted, primary)?;
    apply(disk, &plan)?;
    Ok(())
}

/// Makes the disk healthy with what is wanted, by what becomes of its primary copy: of words as [`commit`](crate::commit) does, of a
/// layout as [`commit_layout`](crate::commit_layout), and of the disk's own as [`repair`](crate::repair), whose errors it reports as
/// those of a commit: `Plan(Unsound)` where a finding can't be mended.
pub fn commit_wanted<const B: usize, D: Disk<B>>(
    alloc: Global,
    disk: &mut D,
    wanted: &Wanted,
    primary: Primary,
) -> Result<(), CommitError>
    requires size { IsSectorSize B }
    ensures count { D.count disk.new ≡ D.count disk.old }
    ensures name { D.name disk.new ≡ D.name disk.old }
    ensures blames { Blames fault_in result (D.faults disk.old) (D.faults disk.new) }
    ensures place { D.tells → IfErr result
        (FailedInCommit (WriteOfReads primary B (D.count disk.old) wanted.now (D.told disk.old).seen)) }
    ensures hides { IfErr result HidesNoFailure }
    ensures commits { D.tells → CommitsWanted primary B (D.count disk.old) wanted.now result (D.told disk.old) (D.told disk.new) }
{
    carry_out(alloc, disk, wanted, primary)
}
