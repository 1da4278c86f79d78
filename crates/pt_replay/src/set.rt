//! Plans by which a disk takes the table that a text says.

ghost use Rattle.std.specs.Prelude.{◌≡◌, IfOk, IfErr, Ok};
ghost use Rattle.pt_sector.specs.Sectors.{IsSectorSize};
ghost use Rattle.pt_sector.specs.Device.{Blames};
ghost use Rattle.pt_sector.specs.Overlays.{OnlyReads};
ghost use Rattle.pt_apply.specs.Plans.{phases_of};
ghost use Rattle.pt_recover.specs.Denotes.{Denotes, Reads};
ghost use Rattle.pt_plan.specs.Batches.{FailedInCommit};
ghost use Rattle.pt_plan.specs.Commits.{commit_fault_in};
ghost use Rattle.pt_set.specs.Sets.{IsMadeFrom, IsUnread, set_fault_in};
ghost use Rattle.pt_replay.specs.Claims.{kept};
ghost use Rattle.pt_replay.specs.Given.{buffers};
ghost use Rattle.pt_replay.specs.Tables.{IsReadyToSet, NoSetting, NotSet, Set, SetFor, SetReads, TextMakes};
ghost use Rattle.pt_replay.specs.Wanted.{disk_of, IsView, OfView, NoBuffers};
ghost use Rattle.pt_replay.specs.inner.Tables.{FailedInSet, NotMade, NotMadeOf, ReadsOld};

use crate::answers::Answer;
use crate::asking::guids_of;
use crate::buffers::put_plan;
use crate::refusals::unset;
use crate::replay::ReplayDisk;
use crate::rows::WriteRow;
use crate::view::View;
use pt_apply::Plan;
use pt_drafts::{Draft, read_draft};
use pt_guid::Guid;
use pt_layout::{Layout, NoTable, recover};
use pt_plan::{CommitError, Primary, Wanted, checked_plan_wanted};
use pt_sector::{Disk, Fault, Moments};
use pt_set::{SetError, table_for};
use std::alloc::Global;

// What the disk denotes, or nothing.
fn known<const B: usize, D: Disk<B>>(
    alloc: Global,
    disk: &mut D,
) -> Result<Option<Layout>, CommitError>
    requires size { IsSectorSize B }
    ensures same { OnlyReads D.Disk disk.old disk.new }
    ensures blames { Blames commit_fault_in result (D.faults disk.old) (D.faults disk.new) }
    ensures place { D.tells → IfErr result (FailedInCommit (Reads B (D.told disk.old).seen)) }
    ensures ok { D.tells → IfOk result (λ o. Denotes B (D.told disk.old).seen o) }
    ensures err { IfErr result IsUnread }
{
    match recover::<B, D>(alloc, disk) {
        Ok(layout) => Ok(Some(layout)),
        Err(NoTable::Device(at)) => Err(CommitError::Device(Fault::Read(at))),
        Err(NoTable::Memory) => Err(CommitError::Memory),
        Err(_) => Ok(None),
    }
}

// The layout that a draft makes of what the disk denotes.
fn layout_for<const B: usize, D: Disk<B>>(
    alloc: Global,
    disk: &mut D,
    draft: &Draft,
    fresh: &[Guid],
) -> Result<Layout, SetError>
    requires size { IsSectorSize B }
    ensures same { OnlyReads D.Disk disk.old disk.new }
    ensures blames { Blames set_fault_in result (D.faults disk.old) (D.faults disk.new) }
    ensures place { D.tells → IfErr result (FailedInSet (Reads B (D.told disk.old).seen)) }
    ensures ok { D.tells → IfOk result
        (λ o. IsMadeFrom B (D.count disk.old) (D.told disk.old).seen fresh.now draft.now (Ok o)) }
    ensures err { D.tells → IfErr result (NotMadeOf B (D.count disk.old) (D.told disk.old).seen fresh.now draft.now) }
{
    let sectors = disk.sectors();
    let old = known::<B, D>(alloc, disk)?;
    Ok(table_for::<B>(alloc, draft, sectors, old.as_ref(), fresh)?)
}

// The layout that a text makes of what the disk denotes. The text is read first.
#[tactic(auto, using(crate::proofs::SayingSet::text_fails, crate::proofs::SayingSet::draft_fails, crate::proofs::SayingSet::text_makes))]
fn layout_of_text<const B: usize, D: Disk<B>>(
    alloc: Global,
    disk: &mut D,
    text: &str,
    fresh: &[Guid],
) -> Result<Layout, SetError>
    requires size { IsSectorSize B }
    ensures same { OnlyReads D.Disk disk.old disk.new }
    ensures blames { Blames set_fault_in result (D.faults disk.old) (D.faults disk.new) }
    ensures place { D.tells → IfErr result (FailedInSet (ReadsOld B (D.told disk.old).seen text.now)) }
    ensures ok { D.tells → IfOk result
        (λ o. TextMakes B (D.count disk.old) (D.told disk.old).seen fresh.now text.now (Ok o)) }
    ensures err { D.tells → IfErr result (NotMade B (D.count disk.old) (D.told disk.old).seen fresh.now text.now) }
{
    let draft = read_draft(alloc, text)?;
    match layout_for::<B, D>(alloc, disk, &draft, fresh) {
        Ok(layout) => Ok(layout),
        Err(error) => Err(error),
    }
}

// The checked plan of that layout.
#[tactic(auto, using(crate::proofs::SayingSet::old_failed, crate::proofs::SayingSet::not_made, crate::proofs::SayingSet::plan_failed))]
fn plan_for_text<const B: usize, D: Disk<B>>(
    alloc: Global,
    disk: &mut D,
    text: &str,
    fresh: &[Guid],
    primary: Primary,
) -> Result<Plan<B>, SetError>
    requires size { IsSectorSize B }
    ensures same { OnlyReads D.Disk disk.old disk.new }
    ensures blames { Blames set_fault_in result (D.faults disk.old) (D.faults disk.new) }
    ensures place { D.tells → IfErr result
        (FailedInSet (SetReads primary B (D.count disk.old) (D.told disk.old).seen fresh.now text.now)) }
    ensures ready { D.tells → IfOk result
        (λ plan. IsReadyToSet primary B (D.count disk.old) (D.told disk.old).seen fresh.now text.now (phases_of plan)) }
    ensures refused { D.tells → IfErr result (NotSet primary B (D.count disk.old) (D.told disk.old).seen fresh.now text.now) }
{
    let wanted = match layout_of_text::<B, D>(alloc, disk, text, fresh) {
        Ok(wanted) => wanted,
        Err(error) => return Err(error),
    };
    match checked_plan_wanted(alloc, disk, &Wanted::Layout(&wanted), primary) {
        Ok(plan) => Ok(plan),
        Err(error) => Err(SetError::Disk(error)),
    }
}

// The checked plan of a text for a view's disk, whatever stands elsewhere; or why there is none.
fn plan_text<const B: usize>(
    alloc: Global,
    view: &View<'_>,
    text: &str,
    fresh: &[Guid],
    elsewhere: Moments<[u8; B]>,
) -> Result<Plan<B>, Answer>
    requires size { IsSectorSize B }
    ensures ok { IfOk result (λ plan. IsReadyToSet (kept view.now) B view.now.sectors (disk_of B view.now elsewhere.entry.items)
        fresh.now text.now (phases_of plan)) }
    ensures view { IfOk result (λ plan. IsView B view.now) }
    ensures err { IfErr result (λ a. OfView B view.now NoBuffers (NoSetting B view.now (disk_of B view.now elsewhere.entry.items)
        fresh.now text.now) a.status a.reply) }
{
    let Some(mut disk) = ReplayDisk::<B>::new(alloc, view, elsewhere) else {
        return Err(Answer::bad_argument(2));
    };
    let primary = view.primary_or(Primary::Kept);
    match plan_for_text::<B, _>(alloc, &mut disk, text, fresh, primary) {
        Ok(plan) => Ok(plan),
        Err(error) => Err(unset(error)),
    }
}

// The same, in the caller's buffers.
fn text_given<const B: usize>(
    alloc: Global,
    view: &View<'_>,
    text: &str,
    fresh: &[Guid],
    writes: &mut [WriteRow],
    bytes: &mut [u8],
    elsewhere: Moments<[u8; B]>,
) -> Answer
    requires size { IsSectorSize B }
    ensures says { OfView B view.now (buffers writes.new bytes.new ≡ buffers writes.old bytes.old)
        (Set B view.now (disk_of B view.now elsewhere.entry.items) fresh.now text.now
        (buffers writes.old bytes.old) (buffers writes.new bytes.new)) result.status result.reply }
{
    match plan_text::<B>(alloc, view, text, fresh, elsewhere) {
        Ok(plan) => put_plan(alloc, &plan, writes, bytes),
        Err(answer) => answer,
    }
}

/// The checked plan by which a view's disk takes the table that a text says, in the caller's buffers, whatever stands elsewhere.
pub fn set_planned<const B: usize>(
    alloc: Global,
    view: &View<'_>,
    text: &[u8],
    drawn: &[u8],
    writes: &mut [WriteRow],
    bytes: &mut [u8],
    elsewhere: Moments<[u8; B]>,
) -> Answer
    requires size { IsSectorSize B }
    ensures says { SetFor B view.now (disk_of B view.now elsewhere.entry.items) text.now drawn.now
        (buffers writes.old bytes.old) (buffers writes.new bytes.new) result.status result.reply }
{
    let fresh = match guids_of(alloc, drawn) {
        Ok(fresh) => fresh,
        Err(answer) => return answer,
    };
    let text = match std::str::from_utf8(text) {
        Ok(text) => text,
        Err(_) => return Answer::bad_argument(9),
    };
    text_given::<B>(
        alloc,
        view,
        text,
        fresh.as_slice(),
        writes,
        bytes,
        elsewhere,
    )
}
