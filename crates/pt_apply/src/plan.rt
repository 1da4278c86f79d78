ghost use Rattle.std.specs.Prelude.{◌≡◌, ◌≤◌, ◌<◌, ◌+◌, ℕ, length, Some, slice_get, OnOk, IfErr};
ghost use Rattle.pt_sector.specs.Sectors.{IsSectorSize, Stopped, written};
ghost use Rattle.pt_sector.specs.Device.{Blames, LeavesOnly};
ghost use Rattle.pt_apply.specs.Plans.{writes_of, phases_of, finished, faults_of, InRange, PhaseInRange, Settled, StoppedSomewhere};
ghost use Rattle.pt_apply.specs.Plans.{Reached, CallFailed, FaultOf};
ghost use Rattle.pt_apply.specs.inner.Plans.{Within, Ended};

use pt_sector::{Disk, Fault, Lba, Sector};

/// One sector to be written, and its bytes.
#[derive(Clone, Copy)]
pub struct Write<const B: usize> {
    pub lba: Lba,
    pub bytes: Sector<B>,
}

/// Phases of writes; a flush ends each phase. Within one the device may keep the writes in any order.
#[derive(Drop)]
pub struct Plan<const B: usize> {
    pub phases: Vec<Vec<Write<B>>>,
}

/// Writes the phases in order and flushes after each; the first call that fails ends it.
///
/// A crash during it leaves a disk stopped in the phase that was reached: each sector of it holds what the phases
/// before left there, or one of the values that this phase writes there. `Ok` means that the finished disk is durable.
pub fn apply<const B: usize, D: Disk<B>>(disk: &mut D, plan: &Plan<B>) -> Result<(), Fault>
    requires size { IsSectorSize B }
    requires in_range { InRange (D.count disk.old) plan.now }
    requires settled { D.tells → Settled (D.told disk.old) (D.told disk.old).seen }
    ensures count { D.count disk.new ≡ D.count disk.old }
    ensures name { D.name disk.new ≡ D.name disk.old }
    ensures blames { Blames Some result (D.faults disk.old) (D.faults disk.new) }
    ensures fault { IfErr result (FaultOf (phases_of plan.now)) }
    ensures done { D.tells → OnOk result (Settled (D.told disk.new) (finished plan.now (D.told disk.old).seen)) }
    ensures any_moment { D.tells → LeavesOnly (D.told disk.old) (D.told disk.new)
        (StoppedSomewhere (phases_of plan.now) (D.told disk.old).seen) }
    ensures passed { D.tells → OnOk result
        (Reached (phases_of plan.now) (D.told disk.old).seen (length (phases_of plan.now)) 0 (D.told disk.old) (D.told disk.new)) }
    ensures failed { D.tells → IfErr result (CallFailed (phases_of plan.now) (D.told disk.old).seen (D.told disk.old) (D.told disk.new)) }
{
    for phase in &plan.phases {
        write_phase(disk, phase)?;
    }
    Ok(())
}

// One phase: its writes in order, and the flush that ends it.
fn write_phase<const B: usize, D: Disk<B>>(disk: &mut D, phase: &[Write<B>]) -> Result<(), Fault>
    requires size { IsSectorSize B }
    requires in_range { PhaseInRange (D.count disk.old) phase.now }
    requires settled { D.tells → Settled (D.told disk.old) (D.told disk.old).seen }
    ensures count { D.count disk.new ≡ D.count disk.old }
    ensures name { D.name disk.new ≡ D.name disk.old }
    ensures blames { Blames Some result (D.faults disk.old) (D.faults disk.new) }
    ensures fault { IfErr result (λ e. (call : ℕ) × (slice_get (faults_of (writes_of phase.now)) call ≡ Some e)) }
    ensures done { D.tells → OnOk result (Settled (D.told disk.new) (written (writes_of phase.now) (D.told disk.old).seen)) }
    ensures passed { D.tells → OnOk result
        (Within (Stopped (D.told disk.old).seen (writes_of phase.now)) (length phase.now + 1) (D.told disk.old) (D.told disk.new)) }
    ensures failed { D.tells → IfErr result (Ended (D.told disk.old).seen (writes_of phase.now) (D.told disk.old) (D.told disk.new)) }
{
    for write in phase {
        disk.write(write.lba, &write.bytes)?;
    }
    disk.flush()
}
