//! What is known of the two disks before anything is written.

ghost use Rattle.std.specs.Prelude.{◌≡◌, ◌↔◌, IfOk, IfErr, OnOk};
ghost use Rattle.pt_sector.specs.Sectors.{IsSectorSize};
ghost use Rattle.pt_sector.specs.Device.{Blames};
ghost use Rattle.pt_sector.specs.Overlays.{OnlyReads};
ghost use Rattle.pt_plan.specs.Layouts.{fault_in_disk, fault_in_other, LikeHidesNoFailure, NotLike};
ghost use Rattle.pt_plan.specs.declared.like_error.LikeError.TheVariants.{OtherSize};
ghost use Rattle.pt_carry.specs.inner.Copying.{IsKnown};

use pt_gpt::LastArray;
use pt_layout::{Layout, recover};
use pt_plan::{CommitError, LikeError, Primary, checked_plan_like_by};
use pt_recover::{Trace, read_layout};
use pt_sector::Disk;
use std::alloc::Global;

/// What the disk denotes, or nothing, with the sectors that decide it; and what the other disk denotes.
pub(crate) struct Known {
    pub(crate) old: Option<Layout>,
    pub(crate) trace: Trace,
    pub(crate) new: Layout,
}

// By hand: a derived drop stands in each function at each of its exits, and is proved there.
impl Drop for Known {
    fn drop(self) {
        let Known {
            old: _,
            trace: _,
            new: _,
        } = self;
    }
}

/// That, once a checked plan was made by which the disk becomes like the other one: so there is one.
pub(crate) fn read_both<const B: usize, D: Disk<B>, E: Disk<B>>(
    alloc: Global,
    disk: &mut D,
    other: &mut E,
    primary: Primary,
) -> Result<Known, LikeError>
    requires size { IsSectorSize B }
    ensures same { OnlyReads D.Disk disk.old disk.new }
    ensures same_other { OnlyReads E.Disk other.old other.new }
    ensures blames { Blames fault_in_disk result (D.faults disk.old) (D.faults disk.new) }
    ensures blames_other { Blames fault_in_other result (E.faults other.old) (E.faults other.new) }
    ensures hides { IfErr result LikeHidesNoFailure }
    ensures other_size { result ≡ Err OtherSize ↔ ¬ (E.count other.old ≡ D.count disk.old) }
    ensures sized { OnOk result (E.count other.old ≡ D.count disk.old) }
    ensures ok { D.tells → E.tells → IfOk result (IsKnown B (E.told other.old).seen (D.told disk.old).seen) }
    ensures refused { D.tells → E.tells → IfErr result (NotLike primary B (E.told other.old).seen (D.told disk.old).seen) }
{
    if other.sectors() != disk.sectors() {
        return Err(LikeError::OtherSize);
    }
    checked_plan_like_by(alloc, disk, other, primary)?;
    let new = recover::<B, E>(alloc, other)?;
    let mut last = LastArray::new(alloc);
    let (found, trace) = match read_layout::<B, D>(alloc, disk, &None, &mut last) {
        Ok(read) => read,
        Err(failure) => return Err(LikeError::Disk(CommitError::from(failure))),
    };
    Ok(Known {
        old: found.ok(),
        trace,
        new,
    })
}
