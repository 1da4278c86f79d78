//! Plans from elsewhere, checked.

ghost use Rattle.std.specs.Prelude.{◌≡◌};
ghost use Rattle.pt_sector.specs.Sectors.{IsSectorSize};
ghost use Rattle.pt_apply.specs.Plans.{phases_of};
ghost use Rattle.pt_replay.specs.Wanted.{disk_of, OfView, NoBuffers};
ghost use Rattle.pt_replay.specs.Claims.{Checked, CheckedFor};
ghost use Rattle.pt_replay.specs.inner.Replies.{check_answer, accepting};

use crate::answers::{Answer, Status};
use crate::plan_rows::plan_of_rows;
use crate::refusals::reason;
use crate::replay::ReplayDisk;
use crate::rows::WriteRow;
use crate::view::View;
use pt_apply::Plan;
use pt_check::{Answer as Verdict, CheckError, check};
use pt_sector::{Fault, Moments};
use std::alloc::Global;

// Why there is no verdict.
fn unchecked(error: CheckError) -> Answer
    ensures { result ≡ check_answer error }
{
    match error {
        CheckError::Device(Fault::Read(at)) => Answer::want(at),
        CheckError::Device(_) => Answer::of(Status::Device),
        CheckError::Memory => Answer::of(Status::Memory),
    }
}

// A yes, with the phase of the switch.
fn accepted(switch: u64) -> Answer
    ensures told { result ≡ accepting switch }
{
    Answer::of(Status::Done).with(switch, 0)
}

// Whether a plan may be applied to a view's disk, whatever stands elsewhere.
fn plan_checked<const B: usize>(
    alloc: Global,
    view: &View<'_>,
    plan: &Plan<B>,
    elsewhere: Moments<[u8; B]>,
) -> Answer
    requires size { IsSectorSize B }
    ensures says { OfView B view.now NoBuffers (Checked B view.now (disk_of B view.now elsewhere.entry.items) (phases_of plan.now))
        result.status result.reply }
{
    let Some(mut disk) = ReplayDisk::<B>::new(alloc, view, elsewhere) else {
        return Answer::bad_argument(2);
    };
    match check(alloc, &mut disk, plan) {
        Ok(Verdict::Yes { switch }) => accepted(switch),
        Ok(Verdict::No(why)) => reason(Status::No, why),
        Err(error) => unchecked(error),
    }
}

/// Whether the plan that C lists may be applied to a view's disk, whatever stands elsewhere.
pub fn checked<const B: usize>(
    alloc: Global,
    view: &View<'_>,
    writes: &[WriteRow],
    bytes: &[u8],
    elsewhere: Moments<[u8; B]>,
) -> Answer
    requires size { IsSectorSize B }
    ensures says { CheckedFor B view.now (disk_of B view.now elsewhere.entry.items) writes.now bytes.now result.status result.reply }
{
    match plan_of_rows::<B>(alloc, writes, bytes) {
        Ok(plan) => plan_checked(alloc, view, &plan, elsewhere),
        Err(answer) => answer,
    }
}
