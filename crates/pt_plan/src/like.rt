//! A disk that becomes like another one.

ghost use Rattle.std.specs.Prelude.{◌≡◌, ◌↔◌, ◌<◌, All, Some, length, IfOk, IfErr};
ghost use Rattle.pt_sector.specs.Sectors.{IsSectorSize};
ghost use Rattle.pt_sector.specs.Device.{Blames};
ghost use Rattle.pt_sector.specs.Overlays.{OnlyReads};
ghost use Rattle.pt_apply.specs.Plans.{phases_of, InRange};
ghost use Rattle.pt_recover.specs.Denotes.{Denotes, Reads};
ghost use Rattle.pt_cases.specs.declared.primary.Primary.TheVariants.{Kept};
ghost use Rattle.pt_plan.specs.Layouts.{fault_in_disk, fault_in_other, LikeHidesNoFailure, FailedInLike, FailedInOther, LikePlanReads};
ghost use Rattle.pt_plan.specs.Layouts.{LikeReads, LeftAlone, IsLikePlan, IsReadyLike, NotLike, BecomesLike};
ghost use Rattle.pt_plan.specs.inner.Layouts.{IsOfOther};
ghost use Rattle.pt_plan.specs.declared.like_error.LikeError.TheVariants.{OtherSize};

use crate::like_error::LikeError;
use crate::prepare::{checked_plan_wanted, plan_wanted};
use crate::wanted::Wanted;
use crate::writing::carry_out;
use pt_apply::Plan;
use pt_layout::{Layout, recover};
use pt_planner::Primary;
use pt_sector::Disk;
use std::alloc::Global;

/// The layout that the other disk denotes, for a disk of so many sectors.
fn layout_of_other<const B: usize, E: Disk<B>>(
    alloc: Global,
    other: &mut E,
    sectors: u64,
) -> Result<Layout, LikeError>
    requires size { IsSectorSize B }
    ensures same { OnlyReads E.Disk other.old other.new }
    ensures blames { Blames fault_in_other result (E.faults other.old) (E.faults other.new) }
    ensures place { E.tells → IfErr result (FailedInOther (Reads B (E.told other.old).seen)) }
    ensures other_size { result ≡ Err OtherSize ↔ ¬ (E.count other.old ≡ sectors) }
    ensures unread { result ≡ Err OtherSize → other.new ≡ other.old }
    ensures ok { E.tells → IfOk result (λ l. Denotes B (E.told other.old).seen (Some l)) }
    ensures err { IfErr result (IsOfOther B E.tells (E.told other.old)) }
{
    if other.sectors() != sectors {
        return Err(LikeError::OtherSize);
    }
    let layout = recover::<B, E>(alloc, other)?;
    Ok(layout)
}

/// The plan that makes the disk healthy with the layout that the other one denotes: without phases where it is so already.
/// Nothing is flushed or written, and the other disk is only read, before the disk. The checker is not asked, and accepts
/// each such plan.
pub fn plan_like<const B: usize, D: Disk<B>, E: Disk<B>>(
    alloc: Global,
    disk: &mut D,
    other: &mut E,
) -> Result<Plan<B>, LikeError>
    requires size { IsSectorSize B }
    ensures same { OnlyReads D.Disk disk.old disk.new }
    ensures same_other { OnlyReads E.Disk other.old other.new }
    ensures blames { Blames fault_in_disk result (D.faults disk.old) (D.faults disk.new) }
    ensures blames_other { Blames fault_in_other result (E.faults other.old) (E.faults other.new) }
    ensures place { D.tells → E.tells → IfErr result
        (FailedInLike (LikePlanReads Kept B (E.told other.old).seen (D.told disk.old).seen)) }
    ensures place_other { E.tells → IfErr result (FailedInOther (Reads B (E.told other.old).seen)) }
    ensures hides { IfErr result LikeHidesNoFailure }
    ensures other_size { result ≡ Err OtherSize ↔ ¬ (E.count other.old ≡ D.count disk.old) }
    ensures alone { IfErr result (LeftAlone disk.old disk.new other.old other.new) }
    ensures in_range { IfOk result (InRange (D.count disk.old)) }
    ensures phases { IfOk result (λ plan. All (λ p. 0 < length p.items) plan.phases.items) }
    ensures planned { D.tells → E.tells → IfOk result
        (λ plan. IsLikePlan Kept B (E.told other.old).seen (D.told disk.old).seen (phases_of plan)) }
    ensures refused { D.tells → E.tells → IfErr result (NotLike Kept B (E.told other.old).seen (D.told disk.old).seen) }
{
    plan_like_by(alloc, disk, other, Primary::Kept)
}

/// The same, by what becomes of the primary copy.
pub fn plan_like_by<const B: usize, D: Disk<B>, E: Disk<B>>(
    alloc: Global,
    disk: &mut D,
    other: &mut E,
    primary: Primary,
) -> Result<Plan<B>, LikeError>
    requires size { IsSectorSize B }
    ensures same { OnlyReads D.Disk disk.old disk.new }
    ensures same_other { OnlyReads E.Disk other.old other.new }
    ensures blames { Blames fault_in_disk result (D.faults disk.old) (D.faults disk.new) }
    ensures blames_other { Blames fault_in_other result (E.faults other.old) (E.faults other.new) }
    ensures place { D.tells → E.tells → IfErr result
        (FailedInLike (LikePlanReads primary B (E.told other.old).seen (D.told disk.old).seen)) }
    ensures place_other { E.tells → IfErr result (FailedInOther (Reads B (E.told other.old).seen)) }
    ensures hides { IfErr result LikeHidesNoFailure }
    ensures other_size { result ≡ Err OtherSize ↔ ¬ (E.count other.old ≡ D.count disk.old) }
    ensures alone { IfErr result (LeftAlone disk.old disk.new other.old other.new) }
    ensures in_range { IfOk result (InRange (D.count disk.old)) }
    ensures phases { IfOk result (λ plan. All (λ p. 0 < length p.items) plan.phases.items) }
    ensures planned { D.tells → E.tells → IfOk result
        (λ plan. IsLikePlan primary B (E.told other.old).seen (D.told disk.old).seen (phases_of plan)) }
    ensures refused { D.tells → E.tells → IfErr result (NotLike primary B (E.told other.old).seen (D.told disk.old).seen) }
{
    let wanted = layout_of_other(alloc, other, disk.sectors())?;
    let plan = plan_wanted(alloc, disk, &Wanted::Layout(&wanted), primary)?;
    Ok(plan)
}

/// The same plan, once the checker has accepted it. Nothing is flushed or written.
pub fn checked_plan_like<const B: usize, D: Disk<B>, E: Disk<B>>(
    alloc: Global,
    disk: &mut D,
    other: &mut E,
) -> Result<Plan<B>, LikeError>
    requires size { IsSectorSize B }
    ensures same { OnlyReads D.Disk disk.old disk.new }
    ensures same_other { OnlyReads E.Disk other.old other.new }
    ensures blames { Blames fault_in_disk result (D.faults disk.old) (D.faults disk.new) }
    ensures blames_other { Blames fault_in_other result (E.faults other.old) (E.faults other.new) }
    ensures place { D.tells → E.tells → IfErr result (FailedInLike (LikeReads Kept B (E.told other.old).seen (D.told disk.old).seen)) }
    ensures place_other { E.tells → IfErr result (FailedInOther (Reads B (E.told other.old).seen)) }
    ensures hides { IfErr result LikeHidesNoFailure }
    ensures other_size { result ≡ Err OtherSize ↔ ¬ (E.count other.old ≡ D.count disk.old) }
    ensures alone { IfErr result (LeftAlone disk.old disk.new other.old other.new) }
    ensures in_range { IfOk result (InRange (D.count disk.old)) }
    ensures phases { IfOk result (λ plan. All (λ p. 0 < length p.items) plan.phases.items) }
    ensures ready { D.tells → E.tells → IfOk result
        (λ plan. IsReadyLike Kept B (E.told other.old).seen (D.told disk.old).seen (phases_of plan)) }
    ensures refused { D.tells → E.tells → IfErr result (NotLike Kept B (E.told other.old).seen (D.told disk.old).seen) }
{
    checked_plan_like_by(alloc, disk, other, Primary::Kept)
}

/// The same, by what becomes of the primary copy.
pub fn checked_plan_like_by<const B: usize, D: Disk<B>, E: Disk<B>>(
    alloc: Global,
    disk: &mut D,
    other: &mut E,
    primary: Primary,
) -> Result<Plan<B>, LikeError>
    requires size { IsSectorSize B }
    ensures same { OnlyReads D.Disk disk.old disk.new }
    ensures same_other { OnlyReads E.Disk other.old other.new }
    ensures blames { Blames fault_in_disk result (D.faults disk.old) (D.faults disk.new) }
    ensures blames_other { Blames fault_in_other result (E.faults other.old) (E.faults other.new) }
    ensures place { D.tells → E.tells → IfErr result (FailedInLike (LikeReads primary B (E.told other.old).seen (D.told disk.old).seen)) }
    ensures place_other { E.tells → IfErr result (FailedInOther (Reads B (E.told other.old).seen)) }
    ensures hides { IfErr result LikeHidesNoFailure }
    ensures other_size { result ≡ Err OtherSize ↔ ¬ (E.count other.old ≡ D.count disk.old) }
    ensures alone { IfErr result (LeftAlone disk.old disk.new other.old other.new) }
    ensures in_range { IfOk result (InRange (D.count disk.old)) }
    ensures phases { IfOk result (λ plan. All (λ p. 0 < length p.items) plan.phases.items) }
    ensures ready { D.tells → E.tells → IfOk result
        (λ plan. IsReadyLike primary B (E.told other.old).seen (D.told disk.old).seen (phases_of plan)) }
    ensures refused { D.tells → E.tells → IfErr result (NotLike primary B (E.told other.old).seen (D.told disk.old).seen) }
{
    let wanted = layout_of_other(alloc, other, disk.sectors())?;
    let plan = checked_plan_wanted(alloc, disk, &Wanted::Layout(&wanted), primary)?;
    Ok(plan)
}

/// Makes the disk healthy with the layout that the other one denotes, as [`commit_layout`](crate::commit_layout) of that
/// layout does.
///
/// The other disk is only read, before anything is asked of the disk. Where it denotes nothing or can't be read, and where
/// the two have different numbers of sectors, the disk isn't touched. A layout is taken, and nothing else: no boot code, no
/// disk signature of an MBR, no sector of a partition.
pub fn commit_like<const B: usize, D: Disk<B>, E: Disk<B>>(
    alloc: Global,
    disk: &mut D,
    other: &mut E,
) -> Result<(), LikeError>
    requires size { IsSectorSize B }
    ensures count { D.count disk.new ≡ D.count disk.old }
    ensures name { D.name disk.new ≡ D.name disk.old }
    ensures same_other { OnlyReads E.Disk other.old other.new }
    ensures blames { Blames fault_in_disk result (D.faults disk.old) (D.faults disk.new) }
    ensures blames_other { Blames fault_in_other result (E.faults other.old) (E.faults other.new) }
    ensures place { D.tells → E.tells → IfErr result (FailedInLike (LikeReads Kept B (E.told other.old).seen (D.told disk.old).seen)) }
    ensures place_other { E.tells → IfErr result (FailedInOther (Reads B (E.told other.old).seen)) }
    ensures hides { IfErr result LikeHidesNoFailure }
    ensures other_size { result ≡ Err OtherSize ↔ ¬ (E.count other.old ≡ D.count disk.old) }
    ensures alone { IfErr result (LeftAlone disk.old disk.new other.old other.new) }
    ensures becomes { D.tells → E.tells → BecomesLike Kept B (E.told other.old).seen result (D.told disk.old) (D.told disk.new) }
{
    commit_like_by(alloc, disk, other, Primary::Kept)
}

/// The same, by what becomes of the primary copy.
pub fn commit_like_by<const B: usize, D: Disk<B>, E: Disk<B>>(
    alloc: Global,
    disk: &mut D,
    other: &mut E,
    primary: Primary,
) -> Result<(), LikeError>
    requires size { IsSectorSize B }
    ensures count { D.count disk.new ≡ D.count disk.old }
    ensures name { D.name disk.new ≡ D.name disk.old }
    ensures same_other { OnlyReads E.Disk other.old other.new }
    ensures blames { Blames fault_in_disk result (D.faults disk.old) (D.faults disk.new) }
    ensures blames_other { Blames fault_in_other result (E.faults other.old) (E.faults other.new) }
    ensures place { D.tells → E.tells → IfErr result (FailedInLike (LikeReads primary B (E.told other.old).seen (D.told disk.old).seen)) }
    ensures place_other { E.tells → IfErr result (FailedInOther (Reads B (E.told other.old).seen)) }
    ensures hides { IfErr result LikeHidesNoFailure }
    ensures other_size { result ≡ Err OtherSize ↔ ¬ (E.count other.old ≡ D.count disk.old) }
    ensures alone { IfErr result (LeftAlone disk.old disk.new other.old other.new) }
    ensures becomes { D.tells → E.tells → BecomesLike primary B (E.told other.old).seen result (D.told disk.old) (D.told disk.new) }
{
    let wanted = layout_of_other(alloc, other, disk.sectors())?;
    carry_out(alloc, disk, &Wanted::Layout(&wanted), primary)?;
    Ok(())
}
