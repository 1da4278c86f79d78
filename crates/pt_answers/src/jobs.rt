//! What a job comes to: what it needs is read, and its task is done on its image.

ghost use Rattle.std.specs.Prelude.{◌≡◌, option_map, string_bytes};
ghost use Rattle.pt_sector.specs.Sectors.{IsSectorSize};
ghost use Rattle.pt_disks.specs.declared.open.Access.TheVariants.{Read as Reading};
ghost use Rattle.pt_answers.specs.Data.{CarriesFrom, WithRuns};
ghost use Rattle.pt_answers.specs.Images.{OnImages};
ghost use Rattle.pt_answers.specs.Runs.{AdoptsAs, FreesAs, RunsAdoption, RunsJob, RunsSet, RunsShow, SetsTable, ShowsAs};
ghost use Rattle.pt_answers.specs.Runs.{choice_of, other_as, writing};

use crate::failure::Failure;
use crate::files::{draft_at, plan_at, runs_at};
use crate::forms::{formed, types};
use crate::images::{Images, Opening};
use crate::tasks::{Task, TaskBeside, on_image, on_images};
use crate::views::{copy_named, place_named};
use crate::words::{Wanted, guids_of};
use pt_drafts::Draft;
use pt_guid::Guid;
use pt_line::{Adoption, Form, InUse, Job, LockedBy, Medium, PrimaryCopy};
use pt_report::Reply;
use std::alloc::Global;

/// What a look at an image comes to: at its table, at the one that the plan in a file would leave, or at one copy of a GPT.
fn shown<const B: usize, I: Images<B>>(
    alloc: Global,
    images: &mut I,
    image: &str,
    opening: Opening,
    after: Option<String>,
    copy: Option<String>,
) -> Result<Reply, Failure>
    requires { IsSectorSize B }
    ensures { RunsShow I.Disk.Disk I.File.remaining opening image.now after copy (I.past images.old) (I.past images.new) result }
{
    match copy {
        Some(name) => {
            let side = copy_named(name.as_str(), &after)?;
            on_image(alloc, images, image, opening, &Task::ShowCopy(side))
        }
        None => match after {
            None => on_image(alloc, images, image, opening, &Task::Show),
            Some(file) => {
                let plan = plan_at(alloc, images, file.as_str())?;
                on_image(alloc, images, image, opening, &Task::ShowAfter(&plan))
            }
        },
    }
}

/// The same, in the form that is asked for.
fn shown_as<const B: usize, I: Images<B>>(
    alloc: Global,
    images: &mut I,
    image: &str,
    opening: Opening,
    after: Option<String>,
    copy: Option<String>,
    form: Form,
) -> Result<Reply, Failure>
    requires { IsSectorSize B }
    ensures { ShowsAs I.Disk.Disk I.File.remaining opening image.now after copy form (I.past images.old) (I.past images.new) result }
{
    let found = shown(alloc, images, image, opening, after, copy);
    formed::<B>(alloc, image, form, found)
}

/// The free blocks of an image, in the form that is asked for.
fn free_as<const B: usize, I: Images<B>>(
    alloc: Global,
    images: &mut I,
    image: &str,
    opening: Opening,
    form: Form,
) -> Result<Reply, Failure>
    requires { IsSectorSize B }
    ensures { FreesAs I.Disk.Disk image.now opening form (I.past images.old) (I.past images.new) result }
{
    let found = on_image(alloc, images, image, opening, &Task::Free);
    formed::<B>(alloc, image, form, found)
}

/// What is done with the table that a text says: it is written, or planned.
fn set_as<const B: usize, I: Images<B>>(
    alloc: Global,
    images: &mut I,
    image: &str,
    opening: Opening,
    draft: &Draft,
    fresh: &[Guid],
    adoption: Adoption,
    primary: PrimaryCopy,
    locked_by: LockedBy,
) -> Result<Reply, Failure>
    requires { IsSectorSize B }
    ensures { RunsSet I.Disk.Disk image.now opening adoption primary locked_by draft.now fresh.now
        (I.past images.old) (I.past images.new) result }
{
    let task = match adoption {
        Adoption::Written => Task::Set(draft, fresh, primary, locked_by),
        Adoption::Planned => Task::PlanSet(draft, fresh, primary),
    };
    on_image(alloc, images, image, opening, &task)
}

/// What the table of a text comes to. The fresh GUIDs and the text are read before the image is opened.
fn set_table<const B: usize, I: Images<B>>(
    alloc: Global,
    images: &mut I,
    image: &str,
    opening: Opening,
    table: &str,
    fresh: &Option<String>,
    adoption: Adoption,
    primary: PrimaryCopy,
    locked_by: LockedBy,
) -> Result<Reply, Failure>
    requires { IsSectorSize B }
    ensures { SetsTable I.Disk.Disk I.File.remaining opening image.now table.now (option_map string_bytes fresh.now) adoption primary
        locked_by (I.past images.old) (I.past images.new) result }
{
    let guids = guids_of(alloc, fresh)?;
    let draft = draft_at(alloc, images, table)?;
    set_as(
        alloc,
        images,
        image,
        opening,
        &draft,
        guids.as_slice(),
        adoption,
        primary,
        locked_by,
    )
}

// The image whose table is adopted is only read, so nothing is asked about its use.
fn as_other(medium: Medium) -> Opening
    ensures { result ≡ other_as medium }
{
    Opening {
        medium,
        in_use: InUse::Refused,
    }
}

/// What the adoption of another image's table alone comes to.
fn adopt_table<const B: usize, I: Images<B>>(
    alloc: Global,
    images: &mut I,
    image: &str,
    opening: Opening,
    other: &str,
    medium: Medium,
    adoption: Adoption,
    primary: PrimaryCopy,
    locked_by: LockedBy,
) -> Result<Reply, Failure>
    requires { IsSectorSize B }
    ensures { RunsAdoption I.Disk.Disk image.now opening other.now medium adoption primary locked_by
        (I.past images.old) (I.past images.new) result }
{
    let task = match adoption {
        Adoption::Written => TaskBeside::Adopt(primary, locked_by),
        Adoption::Planned => TaskBeside::PlanAdopt(primary),
    };
    on_images(
        alloc,
        images,
        image,
        opening,
        other,
        as_other(medium),
        &task,
    )
}

/// What the adoption with data comes to. The runs of the data are read before the images are opened.
fn adopt_with<const B: usize, I: Images<B>>(
    alloc: Global,
    images: &mut I,
    image: &str,
    opening: Opening,
    other: &str,
    medium: Medium,
    file: &str,
    primary: PrimaryCopy,
    locked_by: LockedBy,
) -> Result<Reply, Failure>
    requires { IsSectorSize B }
    ensures { WithRuns I.File.remaining file.now (λ runs. OnImages image.now opening (writing locked_by) other.now (other_as medium) Reading
        (CarriesFrom (choice_of primary) I.Disk.Disk I.Disk.Disk runs)) (I.past images.old) (I.past images.new) result }
{
    let runs = runs_at(alloc, images, file)?;
    let task = TaskBeside::AdoptWith(runs.as_slice(), primary, locked_by);
    on_images(
        alloc,
        images,
        image,
        opening,
        other,
        as_other(medium),
        &task,
    )
}

/// What the adoption of another image's table comes to, with its data or without.
fn adopt<const B: usize, I: Images<B>>(
    alloc: Global,
    images: &mut I,
    image: &str,
    opening: Opening,
    other: &str,
    medium: Medium,
    data: &Option<String>,
    adoption: Adoption,
    primary: PrimaryCopy,
    locked_by: LockedBy,
) -> Result<Reply, Failure>
    requires { IsSectorSize B }
    ensures { AdoptsAs I.Disk.Disk I.File.remaining image.now opening other.now medium (option_map string_bytes data.now) adoption primary
        locked_by (I.past images.old) (I.past images.new) result }
{
    match (data, adoption) {
        (None, _) => adopt_table(
            alloc, images, image, opening, other, medium, adoption, primary, locked_by,
        ),
        (Some(file), Adoption::Written) => adopt_with(
            alloc,
            images,
            image,
            opening,
            other,
            medium,
            file.as_str(),
            primary,
            locked_by,
        ),
        (Some(_), Adoption::Planned) => Err(Failure::PlanWithData),
    }
}

/// What a job comes to: its answer, or why there is none. Words and plans are read before an image is opened.
pub(crate) fn reply_to<const B: usize, I: Images<B>>(
    alloc: Global,
    images: &mut I,
    opening: Opening,
    job: Job,
) -> Result<Reply, Failure>
    requires { IsSectorSize B }
    ensures { RunsJob I.Disk.Disk I.File.remaining opening job (I.past images.old) (I.past images.new) result }
{
    match job {
        Job::Help(text) => Ok(Reply::Text(text)),
        Job::Show {
            image,
            after,
            copy,
            form,
        } => shown_as(alloc, images, image.as_str(), opening, after, copy, form),
        Job::Verify { image } => on_image(alloc, images, image.as_str(), opening, &Task::Verify),
        Job::Locate { image, path, place } => {
            let (path, k) = place_named(path.as_str(), place.as_str())?;
            let task = Task::Locate(&path, k);
            on_image(alloc, images, image.as_str(), opening, &task)
        }
        Job::Free { image, form } => free_as(alloc, images, image.as_str(), opening, form),
        Job::Types => types(alloc),
        Job::Edit {
            image,
            fresh,
            words,
            primary,
            locked_by,
        } => {
            let wanted = Wanted::read(alloc, &fresh, &words)?;
            let task = Task::Edit(&wanted, primary, locked_by);
            on_image(alloc, images, image.as_str(), opening, &task)
        }
        Job::Plan {
            image,
            fresh,
            words,
            primary,
        } => {
            let wanted = Wanted::read(alloc, &fresh, &words)?;
            let task = Task::Plan(&wanted, primary);
            on_image(alloc, images, image.as_str(), opening, &task)
        }
        Job::Check { image, file } => {
            let plan = plan_at(alloc, images, file.as_str())?;
            let task = Task::Check(&plan);
            on_image(alloc, images, image.as_str(), opening, &task)
        }
        Job::Apply {
            image,
            file,
            locked_by,
        } => {
            let plan = plan_at(alloc, images, file.as_str())?;
            let task = Task::Apply(&plan, locked_by);
            on_image(alloc, images, image.as_str(), opening, &task)
        }
        Job::Repair {
            image,
            primary,
            locked_by,
        } => {
            let task = Task::Repair(primary, locked_by);
            on_image(alloc, images, image.as_str(), opening, &task)
        }
        Job::Set {
            image,
            table,
            fresh,
            adoption,
            primary,
            locked_by,
        } => set_table(
            alloc,
            images,
            image.as_str(),
            opening,
            table.as_str(),
            &fresh,
            adoption,
            primary,
            locked_by,
        ),
        Job::Adopt {
            image,
            other,
            other_medium,
            data,
            adoption,
            primary,
            locked_by,
        } => adopt(
            alloc,
            images,
            image.as_str(),
            opening,
            other.as_str(),
            other_medium,
            &data,
            adoption,
            primary,
            locked_by,
        ),
    }
}
