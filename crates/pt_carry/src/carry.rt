//! A disk that becomes like another one, with data carried before its table changes.

ghost use Rattle.std.specs.Prelude.{◌≡◌, ◌↔◌, IfErr, OnOk};
ghost use Rattle.pt_sector.specs.Sectors.{IsSectorSize};
ghost use Rattle.pt_sector.specs.Device.{Blames, LeavesOnly};
ghost use Rattle.pt_sector.specs.Overlays.{OnlyReads};
ghost use Rattle.pt_carry.specs.Carries.{Carries, CarryHidesNoFailure, IsDone, IsEither, fault_in_disk, fault_in_other};
ghost use Rattle.pt_carry.specs.declared.error.CarryError.TheVariants.{NotLike};
ghost use Rattle.pt_plan.specs.declared.like_error.LikeError.TheVariants.{OtherSize};

use crate::copy::carry_data;
use crate::error::CarryError;
use crate::fit::first_unfit;
use crate::known::read_both;
use pt_plan::{Primary, commit_like_by};
use pt_sector::{Disk, Extent};
use std::alloc::Global;

/// Makes the disk healthy with the layout that the other one denotes, as [`commit_like_by`] does, once the sectors of `data` were
/// carried over from it: copied, flushed, and compared.
///
/// Before anything is flushed or written a checked plan was made for the layout, and each sector of the data was found fit: it is on
/// the disk, no partition of its layout owns it, it is in no table of either layout, and recovery of the disk doesn't read it. So a
/// stop at any moment leaves the old layout, or the new one and all of the data.
pub fn commit_like_with<const B: usize, D: Disk<B>, E: Disk<B>>(
    alloc: Global,
    disk: &mut D,
    other: &mut E,
    data: &[Extent],
    primary: Primary,
) -> Result<(), CarryError>
    requires size { IsSectorSize B }
    ensures count { D.count disk.new ≡ D.count disk.old }
    ensures name { D.name disk.new ≡ D.name disk.old }
    ensures same_other { OnlyReads E.Disk other.old other.new }
    ensures blames { Blames fault_in_disk result (D.faults disk.old) (D.faults disk.new) }
    ensures blames_other { Blames fault_in_other result (E.faults other.old) (E.faults other.new) }
    ensures hides { IfErr result CarryHidesNoFailure }
    ensures other_size { result ≡ Err (NotLike OtherSize) ↔ ¬ (E.count other.old ≡ D.count disk.old) }
    ensures carries { D.tells → E.tells
        → Carries primary B data.now (E.told other.old).seen result (D.told disk.old) (D.told disk.new) }
    ensures stops { D.tells → E.tells
        → LeavesOnly (D.told disk.old) (D.told disk.new) (IsEither B data.now (E.told other.old).seen (D.told disk.old).seen) }
    ensures done { D.tells → E.tells → OnOk result (IsDone B data.now (E.told other.old).seen (D.told disk.new)) }
{
    let known = read_both::<B, D, E>(alloc, disk, other, primary)?;
    if let Some((at, why)) = first_unfit::<B>(&known, disk.sectors(), data) {
        return Err(CarryError::Refused(at, why));
    }
    carry_data(disk, other, data)?;
    match commit_like_by(alloc, disk, other, primary) {
        Ok(()) => Ok(()),
        Err(error) => Err(CarryError::Table(error)),
    }
}
