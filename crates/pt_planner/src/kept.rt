//! Plans that keep the primary copy whole.

ghost use Rattle.std.specs.Prelude.{◌≡◌, ◌⊎◌, ◌<◌, ◌≤◌, ◌+◌, ◌↔◌, ◌∷◌, ◌++◌, [], All, IsTrue, IfOk, IfErr, OnOk, List, length, ℕ};
ghost use Rattle.pt_sector.specs.Device.{Blames};
ghost use Rattle.pt_sector.specs.Overlays.{OnlyReads, read_of};
ghost use Rattle.pt_sector.specs.Sectors.{IsSectorSize, Writes, sector};
ghost use Rattle.pt_apply.specs.Plans.{writes_of, phases_of, InRange, PhaseInRange};
ghost use Rattle.pt_apply.specs.inner.Plans.{phases_in};
ghost use Rattle.pt_layout.specs.Surveys.{IsSurvey};
ghost use Rattle.pt_gpt.specs.Copies.{HeaderBytes, HasRoom};
ghost use Rattle.pt_gpt.specs.declared.header.Header.{Header as HeaderValue};
ghost use Rattle.pt_members.specs.declared.layout.Layout.{Layout};
ghost use Rattle.pt_cases.specs.Cases.{IsPlan};
ghost use Rattle.pt_cases.specs.Kept.{AllStand, IsBridge, IsKept};
ghost use Rattle.pt_cases.specs.Writes.{one_write};
ghost use Rattle.pt_cases.specs.Unplanned.{fault_in, IsFailure};
ghost use Rattle.pt_cases.specs.declared.primary.Primary.TheVariants.{Kept};
ghost use Rattle.pt_planner.specs.PlanReads.{FailedInPlan, PlanReadsBy};
ghost use Rattle.pt_planner.specs.inner.Kept.{IsWritten, IsTried, LeavesOut, RewritesPrimary, RewritesBackupFirst, RewritesPrimaryFirst};
ghost use Rattle.pt_planner.specs.inner.Kept.{IsOver};

use crate::copies::single;
use pt_apply::{Plan, Write};
use pt_cases::targets::PlanError;
use pt_gpt::{Side, decode_header, encode_header, has_room, header_at};
use pt_layout::Survey;
use pt_sector::{Disk, FailedRead, Lba, Sector, read_sector};
use std::alloc::{AllocError, Global};

/// How many phases a plan that writes both copies of a GPT has at least. Other plans have fewer.
const COPIES_PHASES: usize = 4;

/// Whether the disk holds what the write would write.
fn holds<const B: usize, D: Disk<B>>(disk: &mut D, write: &Write<B>) -> Result<bool, FailedRead>
    requires { write.now.lba.0 < D.count disk.old }
    ensures same { OnlyReads D.Disk disk.old disk.new }
    ensures blames { Blames read_of result (D.faults disk.old) (D.faults disk.new) }
    ensures place { IfErr result (λ e. e.0 ≡ write.now.lba) }
    ensures holds { D.tells → IfOk result
        (λ yes. IsTrue yes ↔ (sector (D.told disk.old).seen write.now.lba.0 ≡ write.now.bytes)) }
{
    let mut bytes = [0; B];
    read_sector(disk, write.lba, &mut bytes)?;
    Ok(bytes == write.bytes)
}

/// Whether the disk holds what these would write.
fn stands<const B: usize, D: Disk<B>>(disk: &mut D, writes: &[Write<B>]) -> Result<bool, FailedRead>
    requires { PhaseInRange (D.count disk.old) writes.now }
    ensures same { OnlyReads D.Disk disk.old disk.new }
    ensures blames { Blames read_of result (D.faults disk.old) (D.faults disk.new) }
    ensures place { IfErr result (λ e. IsWritten (writes_of writes.now) e.0.0) }
    ensures stands { D.tells → IfOk result (λ yes. IsTrue yes ↔ AllStand (D.told disk.old).seen (writes_of writes.now)) }
{
    for write in writes {
        if !holds(disk, write)? {
            return Ok(false);
        }
    }
    Ok(true)
}

/// Leaves out a phase whose sectors hold what it would write.
fn leave_out<const B: usize, D: Disk<B>>(
    disk: &mut D,
    phases: &mut Vec<Vec<Write<B>>>,
    at: usize,
) -> Result<(), FailedRead>
    requires within { at < length phases.old.items }
    requires in_range { All (λ p. PhaseInRange (D.count disk.old) p.items) phases.old.items }
    ensures same { OnlyReads D.Disk disk.old disk.new }
    ensures blames { Blames read_of result (D.faults disk.old) (D.faults disk.new) }
    ensures place { IfErr result (λ e. IsTried (phases_in phases.old.items) e.0.0) }
    ensures range { All (λ p. PhaseInRange (D.count disk.old) p.items) phases.new.items }
    ensures some { All (λ p. 0 < length p.items) phases.old.items → All (λ p. 0 < length p.items) phases.new.items }
    ensures len { length phases.old.items ≤ length phases.new.items + 1 }
    ensures tried { (s : ℕ) → IsTried (phases_in phases.new.items) s → IsTried (phases_in phases.old.items) s }
    ensures kept { D.tells → OnOk result
        (LeavesOut (D.told disk.old).seen at (phases_in phases.old.items) (phases_in phases.new.items)) }
{
    if stands(disk, &phases[at])? {
        phases.remove(at);
    }
    Ok(())
}

/// Puts a phase in its place.
pub(crate) fn put_phase<const B: usize>(
    phases: &mut Vec<Vec<Write<B>>>,
    at: usize,
    phase: Vec<Write<B>>,
) -> Result<(), AllocError>
    requires { at ≤ length phases.old.items }
    ensures range { OnOk result ((n : ℕ) → PhaseInRange n phase.entry.items → All (λ p. PhaseInRange n p.items) phases.old.items
        → All (λ p. PhaseInRange n p.items) phases.new.items) }
    ensures some { OnOk result (0 < length phase.entry.items → All (λ p. 0 < length p.items) phases.old.items
        → All (λ p. 0 < length p.items) phases.new.items) }
    ensures len { OnOk result (length phases.new.items ≡ length phases.old.items + 1) }
    ensures tried { OnOk result ((s : ℕ) → IsTried (phases_in phases.new.items) s
        → IsWritten (writes_of phase.entry.items) s ⊎ IsTried (phases_in phases.old.items) s) }
    ensures items { OnOk result ((before rest : List Writes) → phases_in phases.old.items ≡ before ++ rest → length before ≡ at
        → phases_in phases.new.items ≡ before ++ writes_of phase.entry.items ∷ rest) }
{
    match phases.insert(at, phase) {
        Ok(()) => Ok(()),
        Err(e) => Err(e.into()),
    }
}

/// The three phases of the primary copy from a place on: sector 1 zeroed, its array, its header. Where the array stands only
/// its header is left of them; else sector 1 gets this sector in place of zeros.
fn keep_open<const B: usize, D: Disk<B>>(
    alloc: Global,
    disk: &mut D,
    phases: &mut Vec<Vec<Write<B>>>,
    at: usize,
    meanwhile: &Sector<B>,
) -> Result<(), PlanError>
    requires size { IsSectorSize B }
    requires within { at + 3 ≤ length phases.old.items }
    requires in_range { All (λ p. PhaseInRange (D.count disk.old) p.items) phases.old.items }
    requires enough { 1 < D.count disk.old }
    ensures same { OnlyReads D.Disk disk.old disk.new }
    ensures blames { Blames fault_in result (D.faults disk.old) (D.faults disk.new) }
    ensures place { IfErr result (FailedInPlan (λ s. (s ≡ 1) ⊎ IsTried (phases_in phases.old.items) s)) }
    ensures failed { IfErr result IsFailure }
    ensures range { OnOk result (All (λ p. PhaseInRange (D.count disk.old) p.items) phases.new.items) }
    ensures some { OnOk result (All (λ p. 0 < length p.items) phases.old.items → All (λ p. 0 < length p.items) phases.new.items) }
    ensures len { OnOk result (length phases.old.items ≤ length phases.new.items + 3) }
    ensures tried { OnOk result ((s : ℕ) → IsTried (phases_in phases.new.items) s → (s ≡ 1) ⊎ IsTried (phases_in phases.old.items) s) }
    ensures kept { D.tells → OnOk result
        (RewritesPrimary (D.told disk.old).seen at (one_write 1 meanwhile.now) (phases_in phases.old.items) (phases_in phases.new.items)) }
{
    phases.remove(at);
    if stands(disk, &phases[at])? {
        phases.remove(at);
        leave_out(disk, phases, at)?;
        return Ok(());
    }
    let opening = single(alloc, 1, meanwhile)?;
    if !stands(disk, &opening)? {
        put_phase(phases, at, opening)?;
    }
    Ok(())
}

/// The header that leads from sector 1 to the backup's array, by the sector of the backup's header. Where that is no header,
/// zeros.
fn bridge<const B: usize>(sectors: u64, backup: &Sector<B>) -> Sector<B>
    requires size { IsSectorSize B }
    requires enough { 1 < sectors }
    ensures { (h : HeaderValue) → HeaderBytes B h backup.now → IsBridge B sectors backup.now result }
{
    match decode_header(backup) {
        Ok(header) => {
            let mut bridge = header;
            bridge.my = header_at(Side::Primary, sectors);
            bridge.alternate = header_at(Side::Backup, sectors);
            encode_header(&bridge)
        }
        Err(_) => [0; B],
    }
}

/// The bytes of the last write.
fn last_bytes<const B: usize>(writes: &[Write<B>]) -> Sector<B>
    requires { 0 < length writes.now }
    ensures { (ws : Writes) (s : ℕ) (v : List ℕ) → writes_of writes.now ≡ ws ++ one_write s v → result ≡ v }
{
    writes[writes.len() - 1].bytes
}

/// What stands in sector 1 of a disk without a primary copy while that is written: what leads to the backup's array where the
/// disk denotes a layout, and zeros where it denotes nothing.
fn opening<const B: usize, D: Disk<B>>(
    disk: &mut D,
    survey: &Survey,
) -> Result<Sector<B>, FailedRead>
    requires size { IsSectorSize B }
    requires enough { 1 < D.count disk.old }
    ensures same { OnlyReads D.Disk disk.old disk.new }
    ensures blames { Blames read_of result (D.faults disk.old) (D.faults disk.new) }
    ensures place { IfErr result (λ e. e.0.0 + 1 ≡ D.count disk.old) }
    ensures opening { D.tells → IfOk result (IsOver B (D.told disk.old).seen survey.now.layout) }
{
    match survey.layout {
        None => Ok([0; B]),
        Some(_) => {
            let sectors = disk.sectors();
            let mut bytes = [0; B];
            read_sector(disk, Lba(header_at(Side::Backup, sectors)), &mut bytes)?;
            Ok(bridge(sectors, &bytes))
        }
    }
}

/// Of the phases that write the backup copy first.
fn keep_backup_first<const B: usize, D: Disk<B>>(
    alloc: Global,
    disk: &mut D,
    phases: &mut Vec<Vec<Write<B>>>,
) -> Result<(), PlanError>
    requires size { IsSectorSize B }
    requires within { 4 ≤ length phases.old.items }
    requires in_range { All (λ p. PhaseInRange (D.count disk.old) p.items) phases.old.items }
    requires some { All (λ p. 0 < length p.items) phases.old.items }
    requires enough { 1 < D.count disk.old }
    ensures same { OnlyReads D.Disk disk.old disk.new }
    ensures blames { Blames fault_in result (D.faults disk.old) (D.faults disk.new) }
    ensures place { IfErr result (FailedInPlan (λ s. (s ≡ 1) ⊎ IsTried (phases_in phases.old.items) s)) }
    ensures failed { IfErr result IsFailure }
    ensures in_range { OnOk result (All (λ p. PhaseInRange (D.count disk.old) p.items) phases.new.items) }
    ensures some { OnOk result (All (λ p. 0 < length p.items) phases.new.items) }
    ensures kept { D.tells → OnOk result
        (RewritesBackupFirst B (D.told disk.old).seen (phases_in phases.old.items) (phases_in phases.new.items)) }
{
    let sectors = disk.sectors();
    let meanwhile = bridge(sectors, &last_bytes(&phases[0]));
    keep_open(alloc, disk, phases, 1, &meanwhile)?;
    leave_out(disk, phases, 0)?;
    Ok(())
}

/// Of those that write the primary copy first.
fn keep_primary_first<const B: usize, D: Disk<B>>(
    alloc: Global,
    disk: &mut D,
    survey: &Survey,
    phases: &mut Vec<Vec<Write<B>>>,
) -> Result<(), PlanError>
    requires size { IsSectorSize B }
    requires within { 4 ≤ length phases.old.items }
    requires in_range { All (λ p. PhaseInRange (D.count disk.old) p.items) phases.old.items }
    requires some { All (λ p. 0 < length p.items) phases.old.items }
    requires enough { 1 < D.count disk.old }
    ensures same { OnlyReads D.Disk disk.old disk.new }
    ensures blames { Blames fault_in result (D.faults disk.old) (D.faults disk.new) }
    ensures place { IfErr result
        (FailedInPlan (λ s. (s ≡ 1) ⊎ ((s + 1 ≡ D.count disk.old) ⊎ IsTried (phases_in phases.old.items) s))) }
    ensures failed { IfErr result IsFailure }
    ensures in_range { OnOk result (All (λ p. PhaseInRange (D.count disk.old) p.items) phases.new.items) }
    ensures some { OnOk result (All (λ p. 0 < length p.items) phases.new.items) }
    ensures kept { D.tells → OnOk result
        (RewritesPrimaryFirst B (D.told disk.old).seen survey.now.layout (phases_in phases.old.items) (phases_in phases.new.items)) }
{
    let meanwhile = opening(disk, survey)?;
    leave_out(disk, phases, 3)?;
    keep_open(alloc, disk, phases, 0, &meanwhile)?;
    Ok(())
}

/// A plan of the disk, with its primary copy kept: where the plan zeroes sector 1 it gets a header that leads to the backup's
/// array, and phases whose sectors hold what they would write are left out. Another plan stays as it is.
pub fn keep_primary<const B: usize, D: Disk<B>>(
    alloc: Global,
    disk: &mut D,
    survey: &Survey,
    plan: Plan<B>,
) -> Result<Plan<B>, PlanError>
    requires size { IsSectorSize B }
    requires survey { D.tells → IsSurvey B (D.told disk.old).seen survey.now }
    requires in_range { InRange (D.count disk.old) plan }
    requires some { All (λ p. 0 < length p.items) plan.phases.items }
    ensures same { OnlyReads D.Disk disk.old disk.new }
    ensures blames { Blames fault_in result (D.faults disk.old) (D.faults disk.new) }
    ensures place { D.tells → IfErr result (λ e. (p : Layout) → IsPlan B (D.told disk.old).seen p (phases_of plan.entry)
        → FailedInPlan (PlanReadsBy Kept B (D.count disk.old) p) e) }
    ensures in_range { IfOk result (InRange (D.count disk.old)) }
    ensures some { IfOk result (λ plan. All (λ p. 0 < length p.items) plan.phases.items) }
    ensures kept { D.tells → IfOk result (λ kept. (p : Layout) → IsPlan B (D.told disk.old).seen p (phases_of plan.entry)
        → IsKept B (D.told disk.old).seen p (phases_of kept)) }
    ensures failed { IfErr result IsFailure }
{
    let Plan { phases } = plan;
    let mut phases = phases;
    if phases.len() < COPIES_PHASES || !has_room::<B>(disk.sectors()) {
        return Ok(Plan { phases });
    }
    if survey.primary {
        keep_backup_first(alloc, disk, &mut phases)?;
    } else {
        keep_primary_first(alloc, disk, survey, &mut phases)?;
    }
    Ok(Plan { phases })
}
