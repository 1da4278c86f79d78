//! Plans that lead from what a disk denotes to another layout.

ghost use Rattle.std.specs.Prelude.{◌≡◌, ◌⊎◌, ◌<◌, ◌≤◌, All, Some, length, OnOk, IfOk, IfErr};
ghost use Rattle.pt_sector.specs.Device.{Blames};
ghost use Rattle.pt_sector.specs.Overlays.{OnlyReads};
ghost use Rattle.pt_sector.specs.Sectors.{IsSectorSize};
ghost use Rattle.pt_apply.specs.Plans.{phases_of, InRange};
ghost use Rattle.pt_layout.specs.Sound.{Sound};
ghost use Rattle.pt_layout.specs.Surveys.{IsSurvey};
ghost use Rattle.pt_cases.specs.Cases.{IsPlan};
ghost use Rattle.pt_cases.specs.Kept.{IsPlanBy};
ghost use Rattle.pt_cases.specs.NewMbr.{UnplannedBy};
ghost use Rattle.pt_cases.specs.Unplanned.{fault_in, Unplanned};
ghost use Rattle.pt_cases.specs.declared.primary.Primary.TheVariants.{Kept};
ghost use Rattle.pt_planner.specs.PlanReads.{FailedInPlan, PlanReads, PlanReadsBy, MakeReads, MakeReadsBy};
ghost use Rattle.pt_planner.specs.inner.PlanReads.{IsUnsoundBy};

use crate::kept::keep_primary;
use crate::new_mbr::{is_first_mbr, new_mbr};
use crate::plans::{places_of, to_gpt, to_mbr};
use crate::state::{Change, change_to, is_done};
use pt_apply::Plan;
use pt_cases::Primary;
use pt_cases::targets::PlanError;
use pt_layout::{Layout, Survey, survey_disk, unsound};
use pt_sector::{Disk, ReadCache, Room};
use std::alloc::Global;

/// That the layout is sound.
fn be_sound<const B: usize>(alloc: Global, wanted: &Layout) -> Result<(), PlanError>
    requires { IsSectorSize B }
    ensures ok { OnOk result (Sound B wanted.now) }
    ensures err { IfErr result (IsUnsoundBy B wanted.now) }
{
    let broken = unsound::<B>(alloc, wanted)?;
    match broken {
        Some(finding) => Err(PlanError::Unsound(finding)),
        None => Ok(()),
    }
}

/// The plan for a layout, by a survey of the disk.
///
/// See [`make_plan`].
pub fn plan_from<const B: usize, D: Disk<B>>(
    alloc: Global,
    disk: &mut D,
    survey: &Survey,
    wanted: &Layout,
) -> Result<Plan<B>, PlanError>
    requires size { IsSectorSize B }
    requires survey { D.tells → IsSurvey B (D.told disk.old).seen survey.now }
    ensures same { OnlyReads D.Disk disk.old disk.new }
    ensures blames { Blames fault_in result (D.faults disk.old) (D.faults disk.new) }
    ensures place { IfErr result (FailedInPlan (PlanReads B (D.count disk.old) wanted.now)) }
    ensures in_range { IfOk result (InRange (D.count disk.old)) }
    ensures some { IfOk result (λ plan. All (λ p. 0 < length p.items) plan.phases.items) }
    ensures plan { D.tells → IfOk result (λ plan. IsPlan B (D.told disk.old).seen wanted.now (phases_of plan)) }
    ensures err { D.tells → IfErr result (Unplanned B (D.told disk.old).seen wanted.now) }
{
    be_sound::<B>(alloc, wanted)?;
    if is_done::<B>(survey, wanted) {
        return Ok(Plan {
            phases: Vec::new(alloc),
        });
    }
    let change = match change_to::<B>(disk.sectors(), &survey.layout, wanted) {
        Some(change) => change,
        None => return Err(PlanError::NotOneSwitch),
    };
    let places = places_of(alloc, disk, &survey.layout, wanted)?;
    match change {
        Change::Mbr(change) => to_mbr(alloc, disk, survey, wanted, &change, places),
        Change::Gpt(table) => to_gpt(alloc, disk, survey, wanted, table, places),
    }
}

/// The same, with the primary copy kept; of an MBR where the disk denotes none, its plan.
fn plan_kept<const B: usize, D: Disk<B>>(
    alloc: Global,
    disk: &mut D,
    survey: &Survey,
    wanted: &Layout,
) -> Result<Plan<B>, PlanError>
    requires size { IsSectorSize B }
    requires survey { D.tells → IsSurvey B (D.told disk.old).seen survey.now }
    ensures same { OnlyReads D.Disk disk.old disk.new }
    ensures blames { Blames fault_in result (D.faults disk.old) (D.faults disk.new) }
    ensures place { D.tells → IfErr result (FailedInPlan (PlanReadsBy Kept B (D.count disk.old) wanted.now)) }
    ensures in_range { IfOk result (InRange (D.count disk.old)) }
    ensures some { IfOk result (λ plan. All (λ p. 0 < length p.items) plan.phases.items) }
    ensures plan { D.tells → IfOk result (λ plan. IsPlanBy Kept B (D.told disk.old).seen wanted.now (phases_of plan)) }
    ensures err { D.tells → IfErr result (UnplannedBy Kept B (D.told disk.old).seen wanted.now) }
{
    if is_first_mbr(disk.sectors(), &survey.layout, wanted) {
        return new_mbr(alloc, disk, survey, wanted);
    }
    let plan = plan_from(alloc, disk, survey, wanted)?;
    keep_primary(alloc, disk, survey, plan)
}

/// The plan for a layout, by a survey of the disk and by what becomes of its primary copy.
///
/// See [`make_plan_by`].
pub fn plan_by<const B: usize, D: Disk<B>>(
    alloc: Global,
    disk: &mut D,
    survey: &Survey,
    wanted: &Layout,
    primary: Primary,
) -> Result<Plan<B>, PlanError>
    requires size { IsSectorSize B }
    requires survey { D.tells → IsSurvey B (D.told disk.old).seen survey.now }
    ensures same { OnlyReads D.Disk disk.old disk.new }
    ensures blames { Blames fault_in result (D.faults disk.old) (D.faults disk.new) }
    ensures place { D.tells → IfErr result (FailedInPlan (PlanReadsBy primary B (D.count disk.old) wanted.now)) }
    ensures in_range { IfOk result (InRange (D.count disk.old)) }
    ensures some { IfOk result (λ plan. All (λ p. 0 < length p.items) plan.phases.items) }
    ensures plan { D.tells → IfOk result (λ plan. IsPlanBy primary B (D.told disk.old).seen wanted.now (phases_of plan)) }
    ensures err { D.tells → IfErr result (UnplannedBy primary B (D.told disk.old).seen wanted.now) }
{
    match primary {
        Primary::Zeroed => plan_from(alloc, disk, survey, wanted),
        Primary::Kept => plan_kept(alloc, disk, survey, wanted),
    }
}

/// A plan that makes the disk healthy with the wanted layout: without phases where it is so already.
///
/// Where a table is written (a GPT, whether its entries change or its copies need mending), a disk with a primary copy
/// gets new labels and the backup copy first; then sector 1 is zeroed, with which the disk turns; then come the primary
/// array and the primary header. A disk without a primary copy gets sector 1 zeroed, the primary array and new labels,
/// the primary header, with which it turns, and the backup copy. An MBR disk gets both copies and new labels, and turns
/// with sector 0. Sector 0 comes last where it isn't protective yet. Arrays are written whole, and the writes of a phase
/// ascend. Where an MBR becomes another one, or labels alone change, the changed sectors that recovery doesn't read come
/// first, and then the one that it reads, alone.
pub fn make_plan<const B: usize, D: Disk<B>>(
    alloc: Global,
    disk: &mut D,
    wanted: &Layout,
) -> Result<Plan<B>, PlanError>
    requires size { IsSectorSize B }
    ensures same { OnlyReads D.Disk disk.old disk.new }
    ensures blames { Blames fault_in result (D.faults disk.old) (D.faults disk.new) }
    ensures place { D.tells → IfErr result (FailedInPlan (MakeReads B (D.told disk.old).seen wanted.now)) }
    ensures in_range { IfOk result (InRange (D.count disk.old)) }
    ensures some { IfOk result (λ plan. All (λ p. 0 < length p.items) plan.phases.items) }
    ensures plan { D.tells → IfOk result (λ plan. IsPlan B (D.told disk.old).seen wanted.now (phases_of plan)) }
    ensures err { D.tells → IfErr result (Unplanned B (D.told disk.old).seen wanted.now) }
{
    let room = Room::for_cache(alloc)?;
    let mut cache = ReadCache::new(disk, room);
    let survey = survey_disk(alloc, &mut cache)?;
    plan_from(alloc, &mut cache, &survey, wanted)
}

/// The same, by what becomes of the primary copy.
///
/// With the primary copy kept, sector 1 isn't zeroed: it gets the header of the backup copy that is valid then, with the numbers
/// of the two headers exchanged, so that it leads to the backup's array; zeros stay where the disk denotes nothing. It isn't
/// written where the primary array needn't be, and a phase whose sectors hold what it would write is left out. What is refused,
/// and which error comes first, is the same, but for an MBR where the disk denotes none.
///
/// That gets the plan which it has on the disk with an emptied sector 0, and then zeros in sector 1 and in the last sector where
/// these may hold headers of a GPT that was there, no partition owns them, and they are no tables of the layout. It is refused
/// where that plan writes a sector that a partition of the old layout owns, and where it writes before sector 0 one that recovery
/// of the disk reads.
pub fn make_plan_by<const B: usize, D: Disk<B>>(
    alloc: Global,
    disk: &mut D,
    wanted: &Layout,
    primary: Primary,
) -> Result<Plan<B>, PlanError>
    requires size { IsSectorSize B }
    ensures same { OnlyReads D.Disk disk.old disk.new }
    ensures blames { Blames fault_in result (D.faults disk.old) (D.faults disk.new) }
    ensures place { D.tells → IfErr result (FailedInPlan (MakeReadsBy primary B (D.told disk.old).seen wanted.now)) }
    ensures in_range { IfOk result (InRange (D.count disk.old)) }
    ensures some { IfOk result (λ plan. All (λ p. 0 < length p.items) plan.phases.items) }
    ensures plan { D.tells → IfOk result (λ plan. IsPlanBy primary B (D.told disk.old).seen wanted.now (phases_of plan)) }
    ensures err { D.tells → IfErr result (UnplannedBy primary B (D.told disk.old).seen wanted.now) }
{
    let room = Room::for_cache(alloc)?;
    let mut cache = ReadCache::new(disk, room);
    let survey = survey_disk(alloc, &mut cache)?;
    plan_by(alloc, &mut cache, &survey, wanted, primary)
}
