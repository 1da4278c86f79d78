//! Sectors that are copied from one disk to another.

ghost use Rattle.std.specs.Prelude.{◌≡◌, ◌<◌, ℕ, IfErr, OnOk};
ghost use Rattle.pt_sector.specs.Sectors.{IsSectorSize, sector};
ghost use Rattle.pt_sector.specs.Device.{Blames};
ghost use Rattle.pt_sector.specs.Overlays.{OnlyReads};
ghost use Rattle.pt_carry.specs.Data.{InRun, IsIn};
ghost use Rattle.pt_carry.specs.Carries.{CarryHidesNoFailure, fault_in_disk, fault_in_other};
ghost use Rattle.pt_carry.specs.inner.Copying.{CopiedAll, CopiedPart, FailedCopy, HasThose, IsOfCopy, Took};

use crate::compare::compare_runs;
use crate::error::CarryError;
use pt_sector::{Disk, Extent, Lba, read_sector};

fn copy_sector<const B: usize, D: Disk<B>, E: Disk<B>>(
    disk: &mut D,
    other: &mut E,
    lba: Lba,
) -> Result<(), CarryError>
    requires size { IsSectorSize B }
    requires within { lba.0 < D.count disk.old }
    requires within_other { lba.0 < E.count other.old }
    ensures count { D.count disk.new ≡ D.count disk.old }
    ensures name { D.name disk.new ≡ D.name disk.old }
    ensures same_other { OnlyReads E.Disk other.old other.new }
    ensures blames { Blames fault_in_disk result (D.faults disk.old) (D.faults disk.new) }
    ensures blames_other { Blames fault_in_other result (E.faults other.old) (E.faults other.new) }
    ensures cause { IfErr result (FailedCopy (λ s. s ≡ lba.0)) }
    ensures took { D.tells → E.tells
        → Took (E.told other.old).seen (λ s. s ≡ lba.0) (D.told disk.old) (D.told disk.new) }
    ensures done { D.tells → E.tells
        → OnOk result (sector (D.told disk.new).seen lba.0 ≡ sector (E.told other.old).seen lba.0) }
{
    let mut bytes = [0; B];
    read_sector::<B, E>(other, lba, &mut bytes)?;
    disk.write(lba, &bytes)?;
    Ok(())
}

fn copy_run<const B: usize, D: Disk<B>, E: Disk<B>>(
    disk: &mut D,
    other: &mut E,
    run: &Extent,
) -> Result<(), CarryError>
    requires size { IsSectorSize B }
    requires within { run.now.last < D.count disk.old }
    requires within_other { run.now.last < E.count other.old }
    ensures count { D.count disk.new ≡ D.count disk.old }
    ensures name { D.name disk.new ≡ D.name disk.old }
    ensures same_other { OnlyReads E.Disk other.old other.new }
    ensures blames { Blames fault_in_disk result (D.faults disk.old) (D.faults disk.new) }
    ensures blames_other { Blames fault_in_other result (E.faults other.old) (E.faults other.new) }
    ensures cause { IfErr result (FailedCopy (InRun run.now)) }
    ensures took { D.tells → E.tells → Took (E.told other.old).seen (InRun run.now) (D.told disk.old) (D.told disk.new) }
    ensures done { D.tells → E.tells
        → OnOk result (HasThose (E.told other.old).seen (InRun run.now) (D.told disk.new).seen) }
{
    for at in run.first().0..run.last().0 + 1 {
        copy_sector(disk, other, Lba(at))?;
    }
    Ok(())
}

fn copy_runs<const B: usize, D: Disk<B>, E: Disk<B>>(
    disk: &mut D,
    other: &mut E,
    runs: &[Extent],
) -> Result<(), CarryError>
    requires size { IsSectorSize B }
    requires within { (s : ℕ) → IsIn runs.now s → s < D.count disk.old }
    requires within_other { (s : ℕ) → IsIn runs.now s → s < E.count other.old }
    ensures count { D.count disk.new ≡ D.count disk.old }
    ensures name { D.name disk.new ≡ D.name disk.old }
    ensures same_other { OnlyReads E.Disk other.old other.new }
    ensures blames { Blames fault_in_disk result (D.faults disk.old) (D.faults disk.new) }
    ensures blames_other { Blames fault_in_other result (E.faults other.old) (E.faults other.new) }
    ensures cause { IfErr result (FailedCopy (IsIn runs.now)) }
    ensures took { D.tells → E.tells → Took (E.told other.old).seen (IsIn runs.now) (D.told disk.old) (D.told disk.new) }
    ensures done { D.tells → E.tells
        → OnOk result (HasThose (E.told other.old).seen (IsIn runs.now) (D.told disk.new).seen) }
{
    for run in runs {
        copy_run(disk, other, run)?;
    }
    Ok(())
}

/// Flushes the disk, so that what a read gives is durable; copies the sectors of the runs to it, one after the other; flushes them;
/// and compares what a read gives of them.
pub(crate) fn carry_data<const B: usize, D: Disk<B>, E: Disk<B>>(
    disk: &mut D,
    other: &mut E,
    runs: &[Extent],
) -> Result<(), CarryError>
    requires size { IsSectorSize B }
    requires within { (s : ℕ) → IsIn runs.now s → s < D.count disk.old }
    requires within_other { (s : ℕ) → IsIn runs.now s → s < E.count other.old }
    ensures count { D.count disk.new ≡ D.count disk.old }
    ensures name { D.name disk.new ≡ D.name disk.old }
    ensures same_other { OnlyReads E.Disk other.old other.new }
    ensures blames { Blames fault_in_disk result (D.faults disk.old) (D.faults disk.new) }
    ensures blames_other { Blames fault_in_other result (E.faults other.old) (E.faults other.new) }
    ensures hides { IfErr result CarryHidesNoFailure }
    ensures own { IfErr result IsOfCopy }
    ensures cause { D.tells → E.tells → IfErr result (FailedCopy (IsIn runs.now)) }
    ensures part { D.tells → E.tells → CopiedPart runs.now (E.told other.old).seen (D.told disk.old) (D.told disk.new) }
    ensures all { D.tells → E.tells
        → OnOk result (CopiedAll runs.now (E.told other.old).seen (D.told disk.old) (D.told disk.new)) }
{
    disk.flush()?;
    copy_runs(disk, other, runs)?;
    disk.flush()?;
    compare_runs(disk, other, runs)
}
