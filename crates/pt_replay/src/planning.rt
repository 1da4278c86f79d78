//! Plans of words and of repairs.

ghost use Rattle.std.specs.Prelude.{◌≡◌, IfOk, IfErr};
ghost use Rattle.pt_sector.specs.Sectors.{IsSectorSize};
ghost use Rattle.pt_apply.specs.Plans.{phases_of};
ghost use Rattle.pt_plan.specs.Batches.{IsReady, IsReadyToMend};
ghost use Rattle.pt_replay.specs.Wanted.{disk_of, IsView, OfView, NoBuffers};
ghost use Rattle.pt_replay.specs.inner.Given.{batch_of};
ghost use Rattle.pt_replay.specs.Given.{buffers};
ghost use Rattle.pt_replay.specs.Claims.{by_table, NoPlan, Planned, PlannedFor, NoMending, MendedFor};

use crate::answers::Answer;
use crate::asking::{edits_of, guids_of};
use crate::buffers::put_plan;
use crate::refusals::{refused, unmended};
use crate::replay::ReplayDisk;
use crate::rows::WriteRow;
use crate::view::View;
use pt_apply::Plan;
use pt_edit::Edit;
use pt_guid::Guid;
use pt_plan::{Primary, Wanted, checked_plan_for_repair_by, checked_plan_wanted};
use pt_sector::Moments;
use std::alloc::Global;

// The checked plan of words for a view's disk, whatever stands elsewhere; or why there is none.
fn plan_words<const B: usize>(
    alloc: Global,
    view: &View<'_>,
    edits: &[Edit],
    guids: &[Guid],
    elsewhere: Moments<[u8; B]>,
) -> Result<Plan<B>, Answer>
    requires size { IsSectorSize B }
    ensures ok { IfOk result (λ plan. IsReady (by_table view.now) B view.now.sectors (batch_of edits.now guids.now)
        (disk_of B view.now elsewhere.entry.items) (phases_of plan)) }
    ensures view { IfOk result (λ plan. IsView B view.now) }
    ensures err { IfErr result (λ a. OfView B view.now NoBuffers (NoPlan B view.now (disk_of B view.now elsewhere.entry.items)
        (batch_of edits.now guids.now)) a.status a.reply) }
{
    let Some(mut disk) = ReplayDisk::<B>::new(alloc, view, elsewhere) else {
        return Err(Answer::bad_argument(2));
    };
    let wanted = Wanted::Edited(edits, guids);
    let primary = view.primary_or(Primary::Zeroed);
    match checked_plan_wanted::<B, _>(alloc, &mut disk, &wanted, primary) {
        Ok(plan) => Ok(plan),
        Err(error) => Err(refused(error)),
    }
}

// The same, in the caller's buffers.
fn plan_given<const B: usize>(
    alloc: Global,
    view: &View<'_>,
    edits: &[Edit],
    guids: &[Guid],
    writes: &mut [WriteRow],
    bytes: &mut [u8],
    elsewhere: Moments<[u8; B]>,
) -> Answer
    requires size { IsSectorSize B }
    ensures says { OfView B view.now (buffers writes.new bytes.new ≡ buffers writes.old bytes.old)
        (Planned B view.now (disk_of B view.now elsewhere.entry.items) (batch_of edits.now guids.now)
        (buffers writes.old bytes.old) (buffers writes.new bytes.new)) result.status result.reply }
{
    match plan_words::<B>(alloc, view, edits, guids, elsewhere) {
        Ok(plan) => put_plan(alloc, &plan, writes, bytes),
        Err(answer) => answer,
    }
}

/// The checked plan of words for a view's disk, in the caller's buffers, whatever stands elsewhere.
pub fn planned<const B: usize>(
    alloc: Global,
    view: &View<'_>,
    words: &[u8],
    drawn: &[u8],
    writes: &mut [WriteRow],
    bytes: &mut [u8],
    elsewhere: Moments<[u8; B]>,
) -> Answer
    requires size { IsSectorSize B }
    ensures says { PlannedFor B view.now (disk_of B view.now elsewhere.entry.items) words.now drawn.now
        (buffers writes.old bytes.old) (buffers writes.new bytes.new) result.status result.reply }
{
    let guids = match guids_of(alloc, drawn) {
        Ok(guids) => guids,
        Err(answer) => return answer,
    };
    let edits = match edits_of(alloc, words) {
        Ok(edits) => edits,
        Err(answer) => return answer,
    };
    plan_given::<B>(
        alloc,
        view,
        edits.as_slice(),
        guids.as_slice(),
        writes,
        bytes,
        elsewhere,
    )
}

// The checked plan of a repair of a view's disk, whatever stands elsewhere; or why there is none.
fn plan_repair<const B: usize>(
    alloc: Global,
    view: &View<'_>,
    elsewhere: Moments<[u8; B]>,
) -> Result<Plan<B>, Answer>
    requires size { IsSectorSize B }
    ensures ok { IfOk result (λ plan. IsReadyToMend (by_table view.now) B (disk_of B view.now elsewhere.entry.items) (phases_of plan)) }
    ensures view { IfOk result (λ plan. IsView B view.now) }
    ensures err { IfErr result (λ a. OfView B view.now NoBuffers (NoMending B view.now (disk_of B view.now elsewhere.entry.items))
        a.status a.reply) }
{
    let Some(mut disk) = ReplayDisk::<B>::new(alloc, view, elsewhere) else {
        return Err(Answer::bad_argument(2));
    };
    let primary = view.primary_or(Primary::Zeroed);
    match checked_plan_for_repair_by::<B, _>(alloc, &mut disk, primary) {
        Ok(mending) => Ok(mending),
        Err(error) => Err(unmended(error)),
    }
}

/// The checked plan of a repair of a view's disk, in the caller's buffers, whatever stands elsewhere.
pub fn mended<const B: usize>(
    alloc: Global,
    view: &View<'_>,
    writes: &mut [WriteRow],
    bytes: &mut [u8],
    elsewhere: Moments<[u8; B]>,
) -> Answer
    requires size { IsSectorSize B }
    ensures says { MendedFor B view.now (disk_of B view.now elsewhere.entry.items)
        (buffers writes.old bytes.old) (buffers writes.new bytes.new) result.status result.reply }
{
    match plan_repair::<B>(alloc, view, elsewhere) {
        Ok(plan) => put_plan(alloc, &plan, writes, bytes),
        Err(answer) => answer,
    }
}
