//! The steps of a commit and of a repair before their first write.

ghost use Rattle.std.specs.Prelude.{◌≡◌, ◌↔◌, ◌<◌, All, length, Ok, None, OnOk, IfOk, IfErr, IsTrue};
ghost use Rattle.pt_sector.specs.Sectors.{IsSectorSize};
ghost use Rattle.pt_sector.specs.Device.{Blames};
ghost use Rattle.pt_sector.specs.Overlays.{OnlyReads};
ghost use Rattle.pt_apply.specs.Plans.{phases_of, InRange};
ghost use Rattle.pt_layout.specs.Surveys.{IsSurvey, Tells};
ghost use Rattle.pt_cases.specs.Kept.{IsPlanBy};
ghost use Rattle.pt_check.specs.Answers.{CheckReads};
ghost use Rattle.pt_planner.specs.PlanReads.{PlanReadsBy};
ghost use Rattle.pt_plan.specs.Batches.{MakesTable, EditedBy, FailedInCommit};
ghost use Rattle.pt_plan.specs.Commits.{commit_fault_in as fault_in, HidesNoFailure};
ghost use Rattle.pt_plan.specs.inner.Commits.{sectors_in, MayStart, NotEdited, NotPlanned, IsSafe, NotSafe};
ghost use Rattle.pt_plan.specs.Wanted.{IsPlanOf, IsReadyOf, IsRefusedBy, PlanOfReads, WriteOfReads};

use crate::error::CommitError;
use crate::wanted::Wanted;
use pt_apply::Plan;
use pt_check::{Answer, check_known};
use pt_edit::{Edit, edit};
use pt_guid::Guid;
use pt_layout::{Layout, Survey, survey_disk};
use pt_planner::{Primary, plan_by};
use pt_sector::{Disk, ReadCache, Room};
use std::alloc::Global;

/// Whether the first word but `a` is `o`, which makes a table of nothing.
fn makes_table(edits: &[Edit]) -> bool
    ensures { IsTrue result ↔ MakesTable edits.now }
{
    for word in edits {
        match word {
            Edit::Align(_) => {}
            Edit::Empty => return true,
            _ => return false,
        }
    }
    false
}

/// Whether the words may start from what the disk denotes: only such as make a table may start from nothing.
fn may_start(survey: &Survey, edits: &[Edit]) -> Result<(), CommitError>
    requires tells { Tells survey.now }
    ensures hides { IfErr result HidesNoFailure }
    ensures blames { IfErr result (λ e. fault_in e ≡ None) }
    ensures may { MayStart survey.now (MakesTable edits.now) result }
{
    match survey.layout {
        Some(_) => Ok(()),
        None => {
            if makes_table(edits) {
                Ok(())
            } else {
                Err(CommitError::NoTable(survey.reason()))
            }
        }
    }
}

/// What the words make of a layout, or of nothing on a disk of so many sectors.
fn edited<const B: usize>(
    alloc: Global,
    old: &Option<Layout>,
    sectors: u64,
    edits: &[Edit],
    guids: &[Guid],
) -> Result<Layout, CommitError>
    requires size { IsSectorSize B }
    ensures hides { IfErr result HidesNoFailure }
    ensures ok { IfOk result (λ made. EditedBy B (sectors_in old.now sectors) old.now
        (record { edits = edits.now; guids = guids.now }) (Ok made)) }
    ensures err { IfErr result (NotEdited B (sectors_in old.now sectors) old.now (record { edits = edits.now; guids = guids.now })) }
{
    let made = match old {
        Some(layout) => edit::<B>(alloc, Some(layout), layout.sectors, edits, guids)?,
        None => edit::<B>(alloc, None, sectors, edits, guids)?,
    };
    Ok(made)
}

/// The plan for a layout, by a survey of the disk.
fn planned<const B: usize, D: Disk<B>>(
    alloc: Global,
    disk: &mut D,
    survey: &Survey,
    wanted: &Layout,
    primary: Primary,
) -> Result<Plan<B>, CommitError>
    requires size { IsSectorSize B }
    requires survey { D.tells → IsSurvey B (D.told disk.old).seen survey.now }
    ensures same { OnlyReads D.Disk disk.old disk.new }
    ensures blames { Blames fault_in result (D.faults disk.old) (D.faults disk.new) }
    ensures place { D.tells → IfErr result (FailedInCommit (PlanReadsBy primary B (D.count disk.old) wanted.now)) }
    ensures hides { IfErr result HidesNoFailure }
    ensures in_range { IfOk result (InRange (D.count disk.old)) }
    ensures some { IfOk result (λ plan. All (λ p. 0 < length p.items) plan.phases.items) }
    ensures plan { D.tells → IfOk result (λ plan. IsPlanBy primary B (D.told disk.old).seen wanted.now (phases_of plan)) }
    ensures err { D.tells → IfErr result (NotPlanned primary B (D.told disk.old).seen wanted.now) }
{
    let plan = plan_by(alloc, disk, survey, wanted, primary)?;
    Ok(plan)
}

/// Checks a plan for a disk that was surveyed.
fn checked<const B: usize, D: Disk<B>>(
    alloc: Global,
    disk: &mut D,
    plan: &Plan<B>,
    survey: Survey,
) -> Result<(), CommitError>
    requires size { IsSectorSize B }
    requires survey { D.tells → IsSurvey B (D.told disk.old).seen survey }
    ensures same { OnlyReads D.Disk disk.old disk.new }
    ensures blames { Blames fault_in result (D.faults disk.old) (D.faults disk.new) }
    ensures place { D.tells → IfErr result (FailedInCommit (CheckReads B (D.told disk.old).seen (phases_of plan.now))) }
    ensures hides { IfErr result HidesNoFailure }
    ensures ok { D.tells → OnOk result (IsSafe B (D.told disk.old).seen (phases_of plan.now)) }
    ensures err { D.tells → IfErr result (NotSafe B (D.told disk.old).seen (phases_of plan.now)) }
{
    let answer = check_known(alloc, disk, plan, survey)?;
    match answer {
        Answer::Yes { .. } => Ok(()),
        Answer::No(why) => Err(CommitError::Check(why)),
    }
}

/// The plan for what is wanted, by a survey of the disk.
fn plan_known<const B: usize, D: Disk<B>>(
    alloc: Global,
    disk: &mut D,
    survey: &Survey,
    wanted: &Wanted,
    primary: Primary,
) -> Result<Plan<B>, CommitError>
    requires size { IsSectorSize B }
    requires tells { Tells survey.now }
    requires survey { D.tells → IsSurvey B (D.told disk.old).seen survey.now }
    ensures same { OnlyReads D.Disk disk.old disk.new }
    ensures blames { Blames fault_in result (D.faults disk.old) (D.faults disk.new) }
    ensures place { D.tells → IfErr result
        (FailedInCommit (PlanOfReads primary B (D.count disk.old) wanted.now (D.told disk.old).seen)) }
    ensures hides { IfErr result HidesNoFailure }
    ensures in_range { IfOk result (InRange (D.count disk.old)) }
    ensures phases { IfOk result (λ plan. All (λ p. 0 < length p.items) plan.phases.items) }
    ensures planned { D.tells → IfOk result
        (λ plan. IsPlanOf primary B (D.count disk.old) wanted.now (D.told disk.old).seen (phases_of plan)) }
    ensures refused { D.tells → IfErr result (IsRefusedBy primary B (D.count disk.old) wanted.now (D.told disk.old).seen) }
{
    match wanted {
        Wanted::Edited(edits, guids) => {
            may_start(survey, edits)?;
            let layout = edited::<B>(alloc, &survey.layout, disk.sectors(), edits, guids)?;
            planned(alloc, disk, survey, &layout, primary)
        }
        Wanted::Layout(layout) => planned(alloc, disk, survey, layout, primary),
        Wanted::Own => match &survey.layout {
            Some(own) => planned(alloc, disk, survey, own, primary),
            None => Err(CommitError::NoTable(survey.reason())),
        },
    }
}

/// The plan for what is wanted, by what becomes of the primary copy. Nothing is flushed or written. The checker is not asked, and
/// accepts each such plan. Words are refused as [`commit`](crate::commit) refuses them; for a layout and for the disk's own, `Edit`
/// and `Check` are never reported.
pub fn plan_wanted<const B: usize, D: Disk<B>>(
    alloc: Global,
    disk: &mut D,
    wanted: &Wanted,
    primary: Primary,
) -> Result<Plan<B>, CommitError>
    requires size { IsSectorSize B }
    ensures same { OnlyReads D.Disk disk.old disk.new }
    ensures blames { Blames fault_in result (D.faults disk.old) (D.faults disk.new) }
    ensures place { D.tells → IfErr result
        (FailedInCommit (PlanOfReads primary B (D.count disk.old) wanted.now (D.told disk.old).seen)) }
    ensures hides { IfErr result HidesNoFailure }
    ensures in_range { IfOk result (InRange (D.count disk.old)) }
    ensures phases { IfOk result (λ plan. All (λ p. 0 < length p.items) plan.phases.items) }
    ensures planned { D.tells → IfOk result
        (λ plan. IsPlanOf primary B (D.count disk.old) wanted.now (D.told disk.old).seen (phases_of plan)) }
    ensures refused { D.tells → IfErr result (IsRefusedBy primary B (D.count disk.old) wanted.now (D.told disk.old).seen) }
{
    let room = Room::for_cache(alloc)?;
    let mut cache = ReadCache::new(disk, room);
    let survey = survey_disk(alloc, &mut cache)?;
    plan_known(alloc, &mut cache, &survey, wanted, primary)
}

/// The same plan, once the checker has accepted it. Nothing is flushed or written.
pub fn checked_plan_wanted<const B: usize, D: Disk<B>>(
    alloc: Global,
    disk: &mut D,
    wanted: &Wanted,
    primary: Primary,
) -> Result<Plan<B>, CommitError>
    requires size { IsSectorSize B }
    ensures same { OnlyReads D.Disk disk.old disk.new }
    ensures blames { Blames fault_in result (D.faults disk.old) (D.faults disk.new) }
    ensures place { D.tells → IfErr result
        (FailedInCommit (WriteOfReads primary B (D.count disk.old) wanted.now (D.told disk.old).seen)) }
    ensures hides { IfErr result HidesNoFailure }
    ensures in_range { IfOk result (InRange (D.count disk.old)) }
    ensures phases { IfOk result (λ plan. All (λ p. 0 < length p.items) plan.phases.items) }
    ensures ready { D.tells → IfOk result
        (λ plan. IsReadyOf primary B (D.count disk.old) wanted.now (D.told disk.old).seen (phases_of plan)) }
    ensures refused { D.tells → IfErr result (IsRefusedBy primary B (D.count disk.old) wanted.now (D.told disk.old).seen) }
{
    let room = Room::for_cache(alloc)?;
    let mut cache = ReadCache::new(disk, room);
    let survey = survey_disk(alloc, &mut cache)?;
    let plan = plan_known(alloc, &mut cache, &survey, wanted, primary)?;
    checked(alloc, &mut cache, &plan, survey)?;
    Ok(plan)
}
