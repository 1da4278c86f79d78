//! Sectors that are compared after they were copied.

ghost use Rattle.std.specs.Prelude.{◌≡◌, ◌<◌, ℕ, IfErr, OnOk};
ghost use Rattle.pt_sector.specs.Sectors.{IsSectorSize, sector};
ghost use Rattle.pt_sector.specs.Device.{Blames};
ghost use Rattle.pt_sector.specs.Overlays.{OnlyReads};
ghost use Rattle.pt_carry.specs.Data.{InRun, IsIn};
ghost use Rattle.pt_carry.specs.Carries.{CarryHidesNoFailure, fault_in_disk, fault_in_other};
ghost use Rattle.pt_carry.specs.inner.Copying.{FailedCopy, HasThose, IsOfCopy, IsOther};

use crate::error::CarryError;
use pt_sector::{Disk, Extent, Lba, read_sector};

// That what was read at a sector is what was written there.
fn same_bytes(bytes: &[u8], written: &[u8], at: Lba) -> Result<(), CarryError>
    ensures ok { OnOk result (bytes.now ≡ written.now) }
    ensures err { IfErr result (IsOther at bytes.now written.now) }
{
    if *bytes == *written {
        Ok(())
    } else {
        Err(CarryError::Differs(at))
    }
}

fn compare_sector<const B: usize, D: Disk<B>, E: Disk<B>>(
    disk: &mut D,
    other: &mut E,
    lba: Lba,
) -> Result<(), CarryError>
    requires size { IsSectorSize B }
    requires within { lba.0 < D.count disk.old }
    requires within_other { lba.0 < E.count other.old }
    requires same { D.tells → E.tells → sector (D.told disk.old).seen lba.0 ≡ sector (E.told other.old).seen lba.0 }
    ensures same { OnlyReads D.Disk disk.old disk.new }
    ensures same_other { OnlyReads E.Disk other.old other.new }
    ensures blames { Blames fault_in_disk result (D.faults disk.old) (D.faults disk.new) }
    ensures blames_other { Blames fault_in_other result (E.faults other.old) (E.faults other.new) }
    ensures hides { IfErr result CarryHidesNoFailure }
    ensures own { IfErr result IsOfCopy }
    ensures cause { D.tells → E.tells → IfErr result (FailedCopy (λ s. s ≡ lba.0)) }
{
    let mut written = [0; B];
    read_sector::<B, E>(other, lba, &mut written)?;
    let mut bytes = [0; B];
    disk.read(lba, &mut bytes)?;
    same_bytes(bytes.as_slice(), written.as_slice(), lba)
}

fn compare_run<const B: usize, D: Disk<B>, E: Disk<B>>(
    disk: &mut D,
    other: &mut E,
    run: &Extent,
) -> Result<(), CarryError>
    requires size { IsSectorSize B }
    requires within { run.now.last < D.count disk.old }
    requires within_other { run.now.last < E.count other.old }
    requires same { D.tells → E.tells → HasThose (E.told other.old).seen (InRun run.now) (D.told disk.old).seen }
    ensures same { OnlyReads D.Disk disk.old disk.new }
    ensures same_other { OnlyReads E.Disk other.old other.new }
    ensures blames { Blames fault_in_disk result (D.faults disk.old) (D.faults disk.new) }
    ensures blames_other { Blames fault_in_other result (E.faults other.old) (E.faults other.new) }
    ensures hides { IfErr result CarryHidesNoFailure }
    ensures own { IfErr result IsOfCopy }
    ensures cause { D.tells → E.tells → IfErr result (FailedCopy (InRun run.now)) }
{
    for at in run.first().0..run.last().0 + 1 {
        compare_sector(disk, other, Lba(at))?;
    }
    Ok(())
}

/// That each sector of the runs reads as on the other disk, from which it was copied; else the first that doesn't.
pub(crate) fn compare_runs<const B: usize, D: Disk<B>, E: Disk<B>>(
    disk: &mut D,
    other: &mut E,
    runs: &[Extent],
) -> Result<(), CarryError>
    requires size { IsSectorSize B }
    requires within { (s : ℕ) → IsIn runs.now s → s < D.count disk.old }
    requires within_other { (s : ℕ) → IsIn runs.now s → s < E.count other.old }
    requires same { D.tells → E.tells → HasThose (E.told other.old).seen (IsIn runs.now) (D.told disk.old).seen }
    ensures same { OnlyReads D.Disk disk.old disk.new }
    ensures same_other { OnlyReads E.Disk other.old other.new }
    ensures blames { Blames fault_in_disk result (D.faults disk.old) (D.faults disk.new) }
    ensures blames_other { Blames fault_in_other result (E.faults other.old) (E.faults other.new) }
    ensures hides { IfErr result CarryHidesNoFailure }
    ensures own { IfErr result IsOfCopy }
    ensures cause { D.tells → E.tells → IfErr result (FailedCopy (IsIn runs.now)) }
{
    for run in runs {
        compare_run(disk, other, run)?;
    }
    Ok(())
}
