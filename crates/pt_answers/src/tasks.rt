//! What is done on an image, or on an image beside another one: they are opened, that is done, and they are closed.

ghost use Rattle.std.specs.Prelude.{◌≡◌};
ghost use Rattle.pt_sector.specs.Sectors.{IsSectorSize};
ghost use Rattle.pt_disks.specs.declared.open.Access.TheVariants.{Read as Reading};
ghost use Rattle.pt_answers.specs.Images.{OnImage, OnImages};
ghost use Rattle.pt_answers.specs.Runs.{choice_of, writing};
ghost use Rattle.pt_answers.specs.inner.Tasks.{Does, DoesBeside, access_beside, access_of};

use crate::changes::{
    adopt_disk, adopt_disk_with, apply_disk, check_on, edit_disk, plan_adopt, plan_edit, plan_set,
    repair_disk, set_disk,
};
use crate::failure::Failure;
use crate::images::{Images, Opening};
use crate::views::{free_on, locate_on, show_after, show_copy, show_disk, verify_disk};
use crate::words::Wanted;
use pt_apply::Plan;
use pt_disks::Access;
use pt_drafts::Draft;
use pt_gpt::Side;
use pt_guid::Guid;
use pt_layout::Path;
use pt_line::{LockedBy, PrimaryCopy};
use pt_plan::Primary;
use pt_report::Reply;
use pt_sector::{Disk, Extent};
use std::alloc::Global;

/// What is done on one image.
#[derive(Drop)]
pub(crate) enum Task<'a, const B: usize> {
    /// Its partitions.
    Show,
    /// Those that it would have after a plan, or the checker's no.
    ShowAfter(&'a Plan<B>),
    /// Those that one copy of a GPT gives alone.
    ShowCopy(Side),
    /// Whether it is healthy, or what is first wrong with it.
    Verify,
    /// Where on the disk this sector of a partition, from 0 on, is.
    Locate(&'a Path, u64),
    /// The blocks of sectors where a new partition may lie.
    Free,
    /// It is edited by words, as one commit.
    Edit(&'a Wanted, PrimaryCopy, LockedBy),
    /// The plan for that, as text.
    Plan(&'a Wanted, PrimaryCopy),
    /// Whether a plan may be applied to it as it is now.
    Check(&'a Plan<B>),
    /// A plan is applied, where the checker says that it may be.
    Apply(&'a Plan<B>, LockedBy),
    /// It is made healthy, and keeps its layout.
    Repair(PrimaryCopy, LockedBy),
    /// It is given the table of a draft, with fresh GUIDs.
    Set(&'a Draft, &'a [Guid], PrimaryCopy, LockedBy),
    /// The plan for that, as text.
    PlanSet(&'a Draft, &'a [Guid], PrimaryCopy),
}

impl<'a, const B: usize> Task<'a, B> {
    /// For what its image is opened.
    fn access(&self) -> Access
        ensures { result ≡ access_of self.now }
    {
        match self {
            Task::Show
            | Task::ShowAfter(_)
            | Task::ShowCopy(_)
            | Task::Verify
            | Task::Locate(_, _)
            | Task::Free
            | Task::Plan(_, _)
            | Task::Check(_)
            | Task::PlanSet(_, _, _) => Access::Read,
            Task::Edit(_, _, locked_by)
            | Task::Apply(_, locked_by)
            | Task::Repair(_, locked_by)
            | Task::Set(_, _, _, locked_by) => access_for(*locked_by),
        }
    }

    /// Does it on a disk.
    fn does<D: Disk<B>>(&self, alloc: Global, disk: &mut D) -> Result<Reply, Failure>
        requires { IsSectorSize B }
        ensures { Does D.Disk self.now disk.old disk.new result }
    {
        match self {
            Task::Show => show_disk::<B, D>(alloc, disk),
            Task::ShowAfter(plan) => show_after::<B, D>(alloc, disk, plan),
            Task::ShowCopy(side) => show_copy::<B, D>(alloc, disk, *side),
            Task::Verify => verify_disk::<B, D>(alloc, disk),
            Task::Locate(path, k) => locate_on::<B, D>(alloc, disk, path, *k),
            Task::Free => free_on::<B, D>(alloc, disk),
            Task::Edit(wanted, primary, _) => {
                let (edits, guids) = (wanted.edits.as_slice(), wanted.guids.as_slice());
                edit_disk::<B, D>(alloc, disk, edits, guids, primary_of(*primary))
            }
            Task::Plan(wanted, primary) => {
                let (edits, guids) = (wanted.edits.as_slice(), wanted.guids.as_slice());
                plan_edit::<B, D>(alloc, disk, edits, guids, primary_of(*primary))
            }
            Task::Check(plan) => check_on::<B, D>(alloc, disk, plan),
            Task::Apply(plan, _) => apply_disk::<B, D>(alloc, disk, plan),
            Task::Repair(primary, _) => repair_disk::<B, D>(alloc, disk, primary_of(*primary)),
            Task::Set(draft, fresh, primary, _) => {
                set_disk::<B, D>(alloc, disk, draft, fresh, primary_of(*primary))
            }
            Task::PlanSet(draft, fresh, primary) => {
                plan_set::<B, D>(alloc, disk, draft, fresh, primary_of(*primary))
            }
        }
    }
}

/// What is done on an image beside another one, which is only read.
#[derive(Drop)]
pub(crate) enum TaskBeside<'a> {
    /// It is given the other one's table.
    Adopt(PrimaryCopy, LockedBy),
    /// The same with the data in runs of sectors, which are carried over before.
    AdoptWith(&'a [Extent], PrimaryCopy, LockedBy),
    /// The plan for the adoption without data, as text.
    PlanAdopt(PrimaryCopy),
}

impl<'a> TaskBeside<'a> {
    /// For what the image is opened that isn't the other one.
    fn access(&self) -> Access
        ensures { result ≡ access_beside self.now }
    {
        match self {
            TaskBeside::Adopt(_, locked_by) | TaskBeside::AdoptWith(_, _, locked_by) => {
                access_for(*locked_by)
            }
            TaskBeside::PlanAdopt(_) => Access::Read,
        }
    }

    /// Does it on a disk beside another one.
    fn does<const B: usize, D: Disk<B>, E: Disk<B>>(
        &self,
        alloc: Global,
        disk: &mut D,
        other: &mut E,
    ) -> Result<Reply, Failure>
        requires { IsSectorSize B }
        ensures { DoesBeside D.Disk E.Disk self.now disk.old disk.new other.old other.new result }
    {
        match self {
            TaskBeside::Adopt(primary, _) => {
                adopt_disk::<B, D, E>(alloc, disk, other, primary_of(*primary))
            }
            TaskBeside::AdoptWith(data, primary, _) => {
                adopt_disk_with::<B, D, E>(alloc, disk, other, data, primary_of(*primary))
            }
            TaskBeside::PlanAdopt(primary) => {
                plan_adopt::<B, D, E>(alloc, disk, other, primary_of(*primary))
            }
        }
    }
}

// For writing, under the command's own lock or the caller's.
fn access_for(locked_by: LockedBy) -> Access
    ensures { result ≡ writing locked_by }
{
    match locked_by {
        LockedBy::Ptab => Access::Write,
        LockedBy::Caller => Access::WriteUnlocked,
    }
}

/// What becomes of the primary copy.
fn primary_of(copy: PrimaryCopy) -> Primary
    ensures { result ≡ choice_of copy }
{
    match copy {
        PrimaryCopy::ByTable => Primary::Zeroed,
        PrimaryCopy::Kept => Primary::Kept,
    }
}

/// Opens an image, does a task on it, and closes it.
pub(crate) fn on_image<const B: usize, I: Images<B>>(
    alloc: Global,
    images: &mut I,
    image: &str,
    opening: Opening,
    task: &Task<B>,
) -> Result<Reply, Failure>
    requires { IsSectorSize B }
    ensures { OnImage image.now opening (access_of task.now) (Does I.Disk.Disk task.now)
        (I.past images.old) (I.past images.new) result }
{
    let mut disk = images.open(image, opening, task.access())?;
    let answer = task.does::<I::Disk>(alloc, &mut disk);
    images.close(disk);
    answer
}

/// Opens the other image, for reading alone, and then the image, does a task on them, and closes both.
pub(crate) fn on_images<const B: usize, I: Images<B>>(
    alloc: Global,
    images: &mut I,
    image: &str,
    opening: Opening,
    other: &str,
    other_opening: Opening,
    task: &TaskBeside,
) -> Result<Reply, Failure>
    requires { IsSectorSize B }
    ensures { OnImages image.now opening (access_beside task.now) other.now other_opening Reading
        (DoesBeside I.Disk.Disk I.Disk.Disk task.now) (I.past images.old) (I.past images.new) result }
{
    let mut other = match images.open(other, other_opening, Access::Read) {
        Ok(other) => other,
        Err(why) => return Err(Failure::OtherOpening(why)),
    };
    let mut disk = match images.open(image, opening, task.access()) {
        Ok(disk) => disk,
        Err(why) => {
            images.close(other);
            return Err(Failure::Opening(why));
        }
    };
    let answer = task.does::<B, I::Disk, I::Disk>(alloc, &mut disk, &mut other);
    images.close(disk);
    images.close(other);
    answer
}
