//! What changes a disk, or plans or checks a change: `edit`, `plan`, `check`, `apply`, `repair`, `set` and `adopt`.

ghost use Rattle.std.specs.Prelude.{◌<◌, All, length};
ghost use Rattle.pt_sector.specs.Sectors.{IsSectorSize};
ghost use Rattle.pt_apply.specs.Plans.{phases_of};
ghost use Rattle.pt_answers.specs.Data.{CarriesFrom};
ghost use Rattle.pt_answers.specs.OnDisks.{AdoptsFrom, AppliesTo, ChecksOn, EditsDisk, PlansAdopting, PlansOn, RepairsDisk};
ghost use Rattle.pt_answers.specs.Sets.{PlansSetting, SetsDisk};
ghost use Rattle.pt_answers.specs.inner.Answers.{IsTextOrMemory};

use crate::failure::Failure;
use pt_apply::{Plan, plan_text};
use pt_carry::commit_like_with;
use pt_check::{Answer, check};
use pt_drafts::Draft;
use pt_edit::Edit;
use pt_guid::Guid;
use pt_plan::{
    Primary, Wanted, apply_checked, commit_like_by, commit_wanted, plan_like_by, plan_wanted,
    repair_by,
};
use pt_report::Reply;
use pt_sector::{Disk, Extent};
use pt_set::{commit_draft, plan_draft};
use std::alloc::Global;

/// Edits a disk by words, as one commit: done only where they are committed.
pub fn edit_disk<const B: usize, D: Disk<B>>(
    alloc: Global,
    disk: &mut D,
    edits: &[Edit],
    guids: &[Guid],
    primary: Primary,
) -> Result<Reply, Failure>
    requires size { IsSectorSize B }
    ensures edits { EditsDisk primary D.Disk (record { edits = edits.now; guids = guids.now }) disk.old disk.new result }
{
    commit_wanted::<B, D>(alloc, disk, &Wanted::Edited(edits, guids), primary)?;
    Ok(Reply::Done)
}

/// The plan of what `edit_disk` would do, as text.
#[tactic(auto, using(crate::proofs::Texts::text_told))]
pub fn plan_edit<const B: usize, D: Disk<B>>(
    alloc: Global,
    disk: &mut D,
    edits: &[Edit],
    guids: &[Guid],
    primary: Primary,
) -> Result<Reply, Failure>
    requires size { IsSectorSize B }
    ensures plans { PlansOn primary D.Disk (record { edits = edits.now; guids = guids.now }) disk.old disk.new result }
{
    let plan = plan_wanted::<B, D>(alloc, disk, &Wanted::Edited(edits, guids), primary)?;
    text_of_plan(alloc, &plan)
}

/// Whether a plan may be applied to a disk as it is now.
pub fn check_on<const B: usize, D: Disk<B>>(
    alloc: Global,
    disk: &mut D,
    plan: &Plan<B>,
) -> Result<Reply, Failure>
    requires size { IsSectorSize B }
    ensures checks { ChecksOn D.Disk (phases_of plan.now) disk.old disk.new result }
{
    let answer = check::<B, D>(alloc, disk, plan)?;
    Ok(Reply::Checked(answer))
}

/// Applies a plan to a disk, where the checker says that it may be: done only where the finished disk is durable.
pub fn apply_disk<const B: usize, D: Disk<B>>(
    alloc: Global,
    disk: &mut D,
    plan: &Plan<B>,
) -> Result<Reply, Failure>
    requires size { IsSectorSize B }
    ensures applies { AppliesTo D.Disk (phases_of plan.now) disk.old disk.new result }
{
    match apply_checked::<B, D>(alloc, disk, plan)? {
        Answer::Yes { .. } => Ok(Reply::Done),
        Answer::No(why) => Ok(Reply::Checked(Answer::No(why))),
    }
}

/// Makes a disk healthy, and keeps its layout.
pub fn repair_disk<const B: usize, D: Disk<B>>(
    alloc: Global,
    disk: &mut D,
    primary: Primary,
) -> Result<Reply, Failure>
    requires size { IsSectorSize B }
    ensures repairs { RepairsDisk primary D.Disk disk.old disk.new result }
{
    repair_by::<B, D>(alloc, disk, primary)?;
    Ok(Reply::Done)
}

/// Gives a disk the table of a draft.
pub fn set_disk<const B: usize, D: Disk<B>>(
    alloc: Global,
    disk: &mut D,
    draft: &Draft,
    fresh: &[Guid],
    primary: Primary,
) -> Result<Reply, Failure>
    requires size { IsSectorSize B }
    ensures sets { SetsDisk primary D.Disk draft.now fresh.now disk.old disk.new result }
{
    commit_draft::<B, D>(alloc, disk, draft, fresh, primary)?;
    Ok(Reply::Done)
}

/// The plan of what `set_disk` would do, as text.
pub fn plan_set<const B: usize, D: Disk<B>>(
    alloc: Global,
    disk: &mut D,
    draft: &Draft,
    fresh: &[Guid],
    primary: Primary,
) -> Result<Reply, Failure>
    requires size { IsSectorSize B }
    ensures plans { PlansSetting primary D.Disk draft.now fresh.now disk.old disk.new result }
{
    let plan = plan_draft::<B, D>(alloc, disk, draft, fresh, primary)?;
    text_of_plan(alloc, &plan)
}

/// Gives a disk the table that another one has. The other one is only read.
pub fn adopt_disk<const B: usize, D: Disk<B>, E: Disk<B>>(
    alloc: Global,
    disk: &mut D,
    other: &mut E,
    primary: Primary,
) -> Result<Reply, Failure>
    requires size { IsSectorSize B }
    ensures adopts { AdoptsFrom primary D.Disk E.Disk disk.old disk.new other.old other.new result }
{
    commit_like_by::<B, D, E>(alloc, disk, other, primary)?;
    Ok(Reply::Done)
}

/// The same with the data in these runs of sectors, which are carried over first.
pub fn adopt_disk_with<const B: usize, D: Disk<B>, E: Disk<B>>(
    alloc: Global,
    disk: &mut D,
    other: &mut E,
    data: &[Extent],
    primary: Primary,
) -> Result<Reply, Failure>
    requires size { IsSectorSize B }
    ensures carries { CarriesFrom primary D.Disk E.Disk data.now disk.old disk.new other.old other.new result }
{
    commit_like_with::<B, D, E>(alloc, disk, other, data, primary)?;
    Ok(Reply::Done)
}

/// The plan of what `adopt_disk` would do, as text.
pub fn plan_adopt<const B: usize, D: Disk<B>, E: Disk<B>>(
    alloc: Global,
    disk: &mut D,
    other: &mut E,
    primary: Primary,
) -> Result<Reply, Failure>
    requires size { IsSectorSize B }
    ensures plans { PlansAdopting primary D.Disk E.Disk disk.old disk.new other.old other.new result }
{
    let plan = plan_like_by::<B, D, E>(alloc, disk, other, primary)?;
    text_of_plan(alloc, &plan)
}

// The text of a plan, or lack of memory for it.
fn text_of_plan<const B: usize>(alloc: Global, plan: &Plan<B>) -> Result<Reply, Failure>
    requires size { IsSectorSize B }
    requires phases { All (λ p. 0 < length p.items) plan.now.phases.items }
    ensures { IsTextOrMemory B (phases_of plan.now) result }
{
    match plan_text(alloc, plan) {
        Ok(text) => Ok(Reply::Text(text)),
        Err(_) => Err(Failure::Memory),
    }
}
