//! The disk with the whole plan written, seen through an overlay.

ghost use Rattle.std.specs.Prelude.{◌≡◌, ◌≤◌, length, IfOk, IfErr};
ghost use Rattle.pt_sector.specs.Device.{Blames};
ghost use Rattle.pt_sector.specs.Overlays.{OnlyReads, room_left, shown};
ghost use Rattle.pt_sector.specs.Sectors.{Sectors, IsSectorSize, after};
ghost use Rattle.pt_apply.specs.Plans.{phases_of, finished, writes_in};
ghost use Rattle.pt_layout.specs.Surveys.{IsSurvey, Tells};
ghost use Rattle.pt_check.specs.Answers.{fault_in, FailedInCheck, FinishReads};

use crate::error::CheckError;
use crate::trial::put_phase;
use pt_apply::Plan;
use pt_gpt::LastArray;
use pt_layout::{Survey, survey_after};
use pt_sector::{Disk, Overlay, Room};
use std::alloc::Global;

/// Puts a whole plan into an overlay that has room for it: what it shows is then the disk with all of the plan's writes done.
pub(crate) fn put_plan<'a, const B: usize, D: Disk<B>>(over: &mut Overlay<'a, D, B>, plan: &Plan<B>)
    requires size { IsSectorSize B }
    requires room { length (writes_in (phases_of plan.now)) ≤ room_left over.old.own }
    ensures same_reference { over.new.disk.ghost_name ≡ over.old.disk.ghost_name }
    ensures disk { over.new.disk.now ≡ over.old.disk.now }
    ensures faults { over.new.failed ≡ over.old.failed }
    ensures seen { (⟦<Overlay<'a, D, B> as Disk<B>>⟧.told over.new).seen ≡ after (phases_of plan.now)
        (⟦<Overlay<'a, D, B> as Disk<B>>⟧.told over.old).seen }
    ensures own { (d : Sectors) → shown d over.new.own ≡ after (phases_of plan.now) (shown d over.old.own) }
{
    for phase in &plan.phases {
        put_phase(over, phase);
    }
}

/// What one reading of the finished disk tells. `count` is the number of the plan's writes. An array isn't summed that has the bytes of
/// the last one.
pub(crate) fn read_finished<const B: usize, D: Disk<B>>(
    alloc: Global,
    disk: &mut D,
    plan: &Plan<B>,
    count: usize,
    last: &mut LastArray,
) -> Result<Survey, CheckError>
    requires size { IsSectorSize B }
    requires room { count ≡ length (writes_in (phases_of plan.now)) }
    ensures same { OnlyReads D.Disk disk.old disk.new }
    ensures blames { Blames fault_in result (D.faults disk.old) (D.faults disk.new) }
    ensures place { D.tells → IfErr result (FailedInCheck (FinishReads B (D.told disk.old).seen (phases_of plan.now))) }
    ensures tells { IfOk result Tells }
    ensures survey { D.tells → IfOk result (IsSurvey B (finished plan.now (D.told disk.old).seen)) }
{
    let room = Room::new(alloc, count)?;
    let mut over = Overlay::new(disk, room);
    put_plan(&mut over, plan);
    let told = survey_after(alloc, &mut over, last)?;
    Ok(told)
}
