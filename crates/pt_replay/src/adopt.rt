//! Plans by which a disk becomes like another one.

ghost use Rattle.std.specs.Prelude.{◌≡◌, IfOk, IfErr};
ghost use Rattle.pt_sector.specs.Sectors.{Sectors, IsSectorSize};
ghost use Rattle.pt_apply.specs.Plans.{phases_of};
ghost use Rattle.pt_plan.specs.Layouts.{IsReadyLike};
ghost use Rattle.pt_replay.specs.Wanted.{disk_of, IsView, OfView, NoBuffers};
ghost use Rattle.pt_replay.specs.Given.{buffers};
ghost use Rattle.pt_replay.specs.Claims.{kept, NoAdopting, OfOther, OfOtherCount, AdoptedFor};

use crate::answers::Answer;
use crate::buffers::put_plan;
use crate::refusals::unlike;
use crate::replay::ReplayDisk;
use crate::rows::WriteRow;
use crate::view::View;
use pt_apply::Plan;
use pt_plan::{Primary, checked_plan_like_by};
use pt_sector::Moments;
use std::alloc::Global;

// The checked plan by which a view's disk becomes like that of the other view, whatever stands elsewhere on the one and
// beyond the sectors of the other; or why there is none.
fn plan_adopt<const B: usize>(
    alloc: Global,
    view: &View<'_>,
    other: &View<'_>,
    elsewhere: Moments<[u8; B]>,
    beyond: Moments<[u8; B]>,
) -> Result<Plan<B>, Answer>
    requires size { IsSectorSize B }
    ensures ok { IfOk result (λ plan. IsReadyLike (kept view.now) B (disk_of B other.now beyond.entry.items)
        (disk_of B view.now elsewhere.entry.items) (phases_of plan)) }
    ensures view { IfOk result (λ plan. IsView B view.now) }
    ensures other { IfOk result (λ plan. IsView B other.now) }
    ensures count { IfOk result (λ plan. other.now.sectors ≡ view.now.sectors) }
    ensures err { IfErr result (λ a. OfView B view.now NoBuffers (OfOther B other.now NoBuffers
        (OfOtherCount view.now other.now NoBuffers (NoAdopting B view.now other.now
        (disk_of B view.now elsewhere.entry.items) (disk_of B other.now beyond.entry.items)))) a.status a.reply) }
{
    let Some(mut disk) = ReplayDisk::<B>::new(alloc, view, elsewhere) else {
        return Err(Answer::bad_argument(2));
    };
    let Some(mut model) = ReplayDisk::<B>::new(alloc, other, beyond) else {
        return Err(Answer::bad_argument(8));
    };
    let primary = view.primary_or(Primary::Kept);
    match checked_plan_like_by::<B, _, _>(alloc, &mut disk, &mut model, primary) {
        Ok(plan) => Ok(plan),
        Err(error) => Err(unlike(error)),
    }
}

/// What stands in the sectors of the other disk that aren't given. Only proofs read it, and it is whatever a proof supposes, as
/// of [`Moments::any`]; so a call can suppose one thing of the one disk and another of the other.
pub fn beyond<const B: usize>() -> Moments<[u8; B]>
    ghost supposed: { Sectors }
    ensures { result.items ≡ supposed }
{
    Moments::any()
}

/// The checked plan by which a view's disk becomes healthy with the layout that the disk of another view denotes, in the
/// caller's buffers, whatever stands elsewhere on the one and beyond the sectors of the other.
pub fn adopt_planned<const B: usize>(
    alloc: Global,
    view: &View<'_>,
    other: &View<'_>,
    writes: &mut [WriteRow],
    bytes: &mut [u8],
    elsewhere: Moments<[u8; B]>,
    beyond: Moments<[u8; B]>,
) -> Answer
    requires size { IsSectorSize B }
    ensures says { AdoptedFor B view.now other.now (disk_of B view.now elsewhere.entry.items) (disk_of B other.now beyond.entry.items)
        (buffers writes.old bytes.old) (buffers writes.new bytes.new) result.status result.reply }
{
    if other.sector_size as usize != B {
        return Answer::bad_argument(7);
    }
    match plan_adopt::<B>(alloc, view, other, elsewhere, beyond) {
        Ok(plan) => put_plan(alloc, &plan, writes, bytes),
        Err(answer) => answer,
    }
}
