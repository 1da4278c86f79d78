//! The plan of an MBR where the disk denotes none.
//!
//! It is the plan for the layout on the disk with an emptied sector 0, an MBR without partitions: what that writes is written
//! over whatever the disk denotes. Recovery of the emptied disk reads sector 0 alone, so that sector 0 comes last.

ghost use Rattle.std.specs.Prelude.{◌≡◌, ◌<◌, ◌≤◌, ◌+◌, ◌↔◌, ◌∷◌, ◌++◌, [], ℕ, All, IsTrue, OnOk, IfOk, IfErr, length, replicate};
ghost use Rattle.pt_mbr.specs.Records.{put_at};
ghost use Rattle.pt_sector.specs.Device.{Blames};
ghost use Rattle.pt_sector.specs.Overlays.{OnlyReads, read_of};
ghost use Rattle.pt_sector.specs.Sectors.{IsSectorSize};
ghost use Rattle.pt_apply.specs.Plans.{phases_of, InRange};
ghost use Rattle.pt_layout.specs.Surveys.{IsSurvey};
ghost use Rattle.pt_cases.specs.Cases.{HadMbr};
ghost use Rattle.pt_cases.specs.Keeps.{IsMbrBody};
ghost use Rattle.pt_cases.specs.NewMbr.{empty_head, emptied, IsNewMbr, IsStale, IsTurning, UnplannedKept};
ghost use Rattle.pt_cases.specs.Unplanned.{fault_in, IsFailure, Unplanned};
ghost use Rattle.pt_cases.specs.Writes.{one_write};
ghost use Rattle.pt_cases.specs.declared.primary.Primary.TheVariants.{Kept};
ghost use Rattle.pt_cases.specs.declared.targets.error.PlanError.TheVariants.{Memory};
ghost use Rattle.pt_planner.specs.PlanReads.{FailedInPlan, PlanReads, PlanReadsBy};
ghost use Rattle.pt_planner.specs.inner.NewMbr.{AddsZeroes, IsFirstMbr, IsFree, IsHeld, IsOr, WasGpt};

use crate::copies::single;
use crate::kept::put_phase;
use crate::phases::{Reserved, touches, touches_owned};
use crate::planner::make_plan;
use crate::plans::read_head;
use pt_apply::Plan;
use pt_cases::targets::{PlanError, owned_in};
use pt_layout::{Body, Layout, Survey, Trace};
use pt_members::{is_owned, is_table};
use pt_sector::{Disk, FailedRead, Lba, Overlay, Room, Sector, read_sector};
use std::alloc::Global;

/// Whether it is that of an MBR.
fn is_mbr(body: &Body) -> bool
    ensures { IsTrue result ↔ IsMbrBody body.now }
{
    match body {
        Body::Mbr { .. } => true,
        Body::Gpt(_) => false,
    }
}

/// Whether the disk denotes an MBR.
fn had_mbr(old: &Option<Layout>) -> bool
    ensures { IsTrue result ↔ HadMbr old.now }
{
    match old {
        Some(layout) => is_mbr(&layout.body),
        None => false,
    }
}

/// Whether it denotes a GPT.
fn was_gpt(old: &Option<Layout>) -> bool
    ensures { IsTrue result ↔ WasGpt old.now }
{
    match old {
        Some(layout) => !is_mbr(&layout.body),
        None => false,
    }
}

/// Whether the layout is an MBR, and a disk of so many sectors, one at least, denotes none.
pub(crate) fn is_first_mbr(sectors: u64, old: &Option<Layout>, wanted: &Layout) -> bool
    ensures { IsTrue result ↔ IsFirstMbr sectors old.now wanted.now }
{
    sectors > 0 && is_mbr(&wanted.body) && !had_mbr(old)
}

/// Four empty records and the signature.
fn empty_end() -> [u8; 66]
    ensures { result ≡ replicate 64 0 ++ (0x55 ∷ 0xAA ∷ []) }
{
    let mut bytes = [0; 66];
    bytes[64] = 0x55;
    bytes[65] = 0xAA;
    bytes
}

#[tactic(auto, unfolding(pt_mbr::specs::Records::put_at))]
fn put_part(bytes: &mut [u8], at: usize, part: &[u8])
    requires { at + length part.now ≤ length bytes.old }
    ensures { bytes.new ≡ put_at at part.now bytes.old }
{
    bytes[at..at + part.len()].copy_from_slice(part);
}

/// Sector 0 with four empty records and the signature put over it.
fn emptied_head<const B: usize>(head: &Sector<B>) -> Sector<B>
    requires { IsSectorSize B }
    ensures put { result ≡ empty_head head.now }
    ensures long { 512 ≤ length head.now }
{
    let mut bytes = *head;
    put_part(&mut bytes[..], 446, &empty_end());
    bytes
}

/// The phases up to the turn: those of the plan for the layout on the emptied disk, or sector 0 alone where that has none.
fn turning<const B: usize, D: Disk<B>>(
    alloc: Global,
    disk: &mut D,
    wanted: &Layout,
) -> Result<Plan<B>, PlanError>
    requires size { IsSectorSize B }
    requires some { 0 < D.count disk.old }
    ensures same { OnlyReads D.Disk disk.old disk.new }
    ensures blames { Blames fault_in result (D.faults disk.old) (D.faults disk.new) }
    ensures place { D.tells → IfErr result (FailedInPlan (PlanReads B (D.count disk.old) wanted.now)) }
    ensures in_range { IfOk result (InRange (D.count disk.old)) }
    ensures some { IfOk result (λ plan. All (λ p. 0 < length p.items) plan.phases.items) }
    ensures plan { D.tells → IfOk result (λ plan. IsTurning B (D.told disk.old).seen wanted.now (phases_of plan)) }
    ensures err { D.tells → IfErr result (Unplanned B (emptied (D.told disk.old).seen) wanted.now) }
{
    let room = Room::new(alloc, 1)?;
    let under = read_head(disk)?;
    let head = emptied_head(&under);
    let mut over = Overlay::new(disk, room);
    over.put(Lba(0), &head);
    let plan = make_plan(alloc, &mut over, wanted)?;
    or_head(alloc, plan, &head)
}

/// The plan, or where it has no phases the one that writes this sector 0.
fn or_head<const B: usize>(
    alloc: Global,
    plan: Plan<B>,
    head: &Sector<B>,
) -> Result<Plan<B>, PlanError>
    requires size { IsSectorSize B }
    ensures in_range { IfOk result (λ one. (n : ℕ) → 0 < n → InRange n plan.entry → InRange n one) }
    ensures some { IfOk result (λ one. All (λ p. 0 < length p.items) plan.entry.phases.items
        → All (λ p. 0 < length p.items) one.phases.items) }
    ensures ok { IfOk result (λ one. IsOr (phases_of plan.entry) (one_write 0 head.now) (phases_of one)) }
    ensures err { IfErr result (λ e. e ≡ Memory) }
{
    if !plan.phases.is_empty() {
        return Ok(plan);
    }
    let mut phases = Vec::new(alloc);
    put_phase(&mut phases, 0, single(alloc, 0, head)?)?;
    Ok(Plan { phases })
}

/// That there is nothing against these phases: they leave what a partition of the old layout owns, and but for the last one what
/// recovery of the disk reads.
fn be_free<const B: usize>(
    old: &Option<Layout>,
    trace: &Trace,
    plan: &Plan<B>,
) -> Result<(), PlanError>
    requires { IsSectorSize B }
    ensures ok { OnOk result (IsFree B old.now trace.now (phases_of plan.now)) }
    ensures err { IfErr result (IsHeld B old.now trace.now (phases_of plan.now)) }
{
    if touches_owned(old, &plan.phases) {
        return Err(PlanError::ReusedInOneBatch);
    }
    let count = plan.phases.len();
    let before = count.saturating_sub(1);
    if touches(&Reserved::Guarded(trace), &plan.phases[..before]) {
        return Err(PlanError::NotOneSwitch);
    }
    Ok(())
}

/// Whether the sector may hold a header still of the GPT that was there, and may be zeroed.
fn is_stale<const B: usize, D: Disk<B>>(
    disk: &mut D,
    old: &Option<Layout>,
    wanted: &Layout,
    at: Lba,
) -> Result<bool, FailedRead>
    requires size { IsSectorSize B }
    ensures same { OnlyReads D.Disk disk.old disk.new }
    ensures blames { Blames read_of result (D.faults disk.old) (D.faults disk.new) }
    ensures place { IfErr result (λ e. e.0 ≡ at) }
    ensures within { IfOk result (λ yes. IsTrue yes → at.0 < D.count disk.old) }
    ensures stale { D.tells → IfOk result (λ yes. IsTrue yes ↔ IsStale B (D.told disk.old).seen old.now wanted.now at.0) }
{
    if at.0 >= disk.sectors() || !was_gpt(old) || owned_in::<B>(old, at) {
        return Ok(false);
    }
    if is_owned::<B>(wanted, at) || is_table::<B>(wanted, at) {
        return Ok(false);
    }
    let mut bytes = [0; B];
    read_sector(disk, at, &mut bytes)?;
    Ok(bytes != [0; B])
}

/// The phase that zeroes the sector, where it may hold such a header.
fn zero_header<const B: usize, D: Disk<B>>(
    alloc: Global,
    disk: &mut D,
    old: &Option<Layout>,
    wanted: &Layout,
    at: Lba,
    plan: &mut Plan<B>,
) -> Result<(), PlanError>
    requires size { IsSectorSize B }
    requires in_range { InRange (D.count disk.old) plan.old }
    requires some { All (λ p. 0 < length p.items) plan.old.phases.items }
    ensures same { OnlyReads D.Disk disk.old disk.new }
    ensures blames { Blames fault_in result (D.faults disk.old) (D.faults disk.new) }
    ensures place { IfErr result (FailedInPlan (λ s. s ≡ at.0)) }
    ensures failed { IfErr result IsFailure }
    ensures in_range { OnOk result (InRange (D.count disk.old) plan.new) }
    ensures some { OnOk result (All (λ p. 0 < length p.items) plan.new.phases.items) }
    ensures zeroes { D.tells → OnOk result
        (AddsZeroes B (D.told disk.old).seen old.now wanted.now at.0 (phases_of plan.old) (phases_of plan.new)) }
{
    if is_stale(disk, old, wanted, at)? {
        let zeros = [0; B];
        let count = plan.phases.len();
        put_phase(&mut plan.phases, count, single(alloc, at.0, &zeros)?)?;
    }
    Ok(())
}

/// The plan of an MBR on a disk that denotes none: what recovery of the disk doesn't read first, then sector 0 alone, and then
/// zeros where headers of a GPT stood.
pub(crate) fn new_mbr<const B: usize, D: Disk<B>>(
    alloc: Global,
    disk: &mut D,
    survey: &Survey,
    wanted: &Layout,
) -> Result<Plan<B>, PlanError>
    requires size { IsSectorSize B }
    requires first { IsFirstMbr (D.count disk.old) survey.now.layout wanted.now }
    requires survey { D.tells → IsSurvey B (D.told disk.old).seen survey.now }
    ensures same { OnlyReads D.Disk disk.old disk.new }
    ensures blames { Blames fault_in result (D.faults disk.old) (D.faults disk.new) }
    ensures place { D.tells → IfErr result (FailedInPlan (PlanReadsBy Kept B (D.count disk.old) wanted.now)) }
    ensures in_range { IfOk result (InRange (D.count disk.old)) }
    ensures some { IfOk result (λ plan. All (λ p. 0 < length p.items) plan.phases.items) }
    ensures plan { D.tells → IfOk result (λ plan. IsNewMbr B (D.told disk.old).seen wanted.now (phases_of plan)) }
    ensures err { D.tells → IfErr result (UnplannedKept B (D.told disk.old).seen wanted.now) }
{
    let mut plan = turning(alloc, disk, wanted)?;
    be_free(&survey.layout, &survey.trace, &plan)?;
    let last = Lba(disk.sectors() - 1);
    zero_header(alloc, disk, &survey.layout, wanted, Lba(1), &mut plan)?;
    zero_header(alloc, disk, &survey.layout, wanted, last, &mut plan)?;
    Ok(plan)
}
