//! The targets of a wanted layout, and the plan that they make.

ghost use Rattle.std.specs.Prelude.{◌≡◌, ◌<◌, All, length, IfOk, IfErr};
ghost use Rattle.pt_sector.specs.Device.{Blames};
ghost use Rattle.pt_sector.specs.Overlays.{OnlyReads, read_of};
ghost use Rattle.pt_sector.specs.Sectors.{IsSectorSize, sector};
ghost use Rattle.pt_apply.specs.Plans.{phases_of, InRange};
ghost use Rattle.pt_layout.specs.Surveys.{IsSurvey};
ghost use Rattle.pt_members.specs.declared.layout.Body.TheVariants.{Mbr, Gpt};
ghost use Rattle.pt_cases.specs.Cases.{IsPlan};
ghost use Rattle.pt_cases.specs.Writes.{FitsTable};
ghost use Rattle.pt_recover.specs.Denotes.{Denotes};
ghost use Rattle.pt_cases.specs.Unplanned.{fault_in, Start, NoneLeft};
ghost use Rattle.pt_cases.specs.Targets.{AreLabelTargets};
ghost use Rattle.pt_planner.specs.PlanReads.{FailedInPlan, PlanReads};
ghost use Rattle.pt_planner.specs.inner.PlanReads.{PlacesStop, IsMbrChange, OrderOf};
ghost use Rattle.pt_cases.specs.inner.Unplanned.{Hindered};

use crate::chains::mbr_targets;
use crate::phases::{Order, both_copies, one_label, within_mbr};
use crate::places::{LabelTargets, label_targets};
use crate::state::{MbrChange, changes_labels, is_broken, plain_order};
use pt_apply::Plan;
use pt_cases::targets::{PlanError, Target};
use pt_gpt::Table;
use pt_layout::{Finding, Head, Layout, Path, Survey};
use pt_sector::{Disk, FailedRead, Lba, Sector, read_sector};
use std::alloc::Global;

/// What the label places of the wanted layout must hold.
pub(crate) fn places_of<const B: usize, D: Disk<B>>(
    alloc: Global,
    disk: &mut D,
    old: &Option<Layout>,
    wanted: &Layout,
) -> Result<Vec<Target<B>>, PlanError>
    requires size { IsSectorSize B }
    requires sectors { wanted.now.sectors ≡ D.count disk.old }
    requires old { D.tells → Denotes B (D.told disk.old).seen old.now }
    ensures same { OnlyReads D.Disk disk.old disk.new }
    ensures blames { Blames fault_in result (D.faults disk.old) (D.faults disk.new) }
    ensures place { IfErr result (FailedInPlan (PlanReads B (D.count disk.old) wanted.now)) }
    ensures in_range { IfOk result (λ ts. All (λ t. t.at.0 < D.count disk.old) ts.items) }
    ensures ok { D.tells → IfOk result (λ ts. AreLabelTargets (D.told disk.old).seen old.now wanted.now ts.items) }
    ensures none_left { D.tells → IfOk result (λ ts. NoneLeft B (D.told disk.old).seen wanted.now) }
    ensures err { D.tells → IfErr result (PlacesStop B (D.told disk.old).seen old.now wanted.now) }
{
    let answer = label_targets(alloc, disk, old, wanted)?;
    match answer {
        LabelTargets::Targets(targets) => Ok(targets),
        LabelTargets::Foreign(number) => {
            Err(PlanError::Unsound(Finding::ForeignLabel(Path {
                number,
                letter: None,
            })))
        }
        LabelTargets::Misplaced | LabelTargets::Unreadable => Err(PlanError::NotOneSwitch),
    }
}

/// The plan for an MBR, on an MBR disk.
pub(crate) fn to_mbr<const B: usize, D: Disk<B>>(
    alloc: Global,
    disk: &mut D,
    survey: &Survey,
    wanted: &Layout,
    change: &MbrChange,
    places: Vec<Target<B>>,
) -> Result<Plan<B>, PlanError>
    requires size { IsSectorSize B }
    requires body { wanted.now.body ≡ Mbr change.now.records.now change.now.chain.now }
    requires change { IsMbrChange (D.count disk.old) survey.now.layout change.now }
    requires in_range { All (λ t. t.at.0 < D.count disk.old) places.items }
    requires survey { D.tells → IsSurvey B (D.told disk.old).seen survey.now }
    requires start { D.tells → Start B (D.told disk.old).seen survey.now.layout wanted.now }
    requires places { D.tells → AreLabelTargets (D.told disk.old).seen survey.now.layout wanted.now places.items }
    ensures same { OnlyReads D.Disk disk.old disk.new }
    ensures blames { Blames fault_in result (D.faults disk.old) (D.faults disk.new) }
    ensures place { IfErr result (FailedInPlan (PlanReads B (D.count disk.old) wanted.now)) }
    ensures in_range { IfOk result (InRange (D.count disk.old)) }
    ensures some { IfOk result (λ plan. All (λ p. 0 < length p.items) plan.phases.items) }
    ensures plan { D.tells → IfOk result (λ plan. IsPlan B (D.told disk.old).seen wanted.now (phases_of plan)) }
    ensures err { D.tells → IfErr result (Hindered B (D.told disk.old).seen survey.now.layout wanted.now) }
{
    let targets = mbr_targets(
        alloc,
        disk,
        change.old_records,
        change.old_chain,
        change.records,
        change.chain,
    )?;
    match targets {
        Some(heads) => within_mbr(alloc, &survey.layout, &survey.guarded, heads, places),
        None => Err(PlanError::NotOneSwitch),
    }
}

/// Sector 0.
pub(crate) fn read_head<const B: usize, D: Disk<B>>(disk: &mut D) -> Result<Sector<B>, FailedRead>
    requires { 0 < D.count disk.old }
    ensures same { OnlyReads D.Disk disk.old disk.new }
    ensures blames { Blames read_of result (D.faults disk.old) (D.faults disk.new) }
    ensures place { IfErr result (λ e. e.0.0 ≡ 0) }
    ensures bytes { D.tells → IfOk result (λ bytes. bytes ≡ sector (D.told disk.old).seen 0) }
{
    let mut bytes = [0; B];
    read_sector(disk, Lba(0), &mut bytes)?;
    Ok(bytes)
}

/// In which order both copies of a table are written, with sector 0 where it may have to be written with them.
fn order_of<const B: usize, D: Disk<B>>(
    disk: &mut D,
    head: Head,
    primary: bool,
) -> Result<Order<B>, FailedRead>
    requires some { 0 < D.count disk.old }
    ensures same { OnlyReads D.Disk disk.old disk.new }
    ensures blames { Blames read_of result (D.faults disk.old) (D.faults disk.new) }
    ensures place { IfErr result (λ e. e.0.0 ≡ 0) }
    ensures order { D.tells → IfOk result (OrderOf (D.told disk.old).seen head primary) }
{
    match head {
        Head::Mbr => Ok(Order::FromMbr(read_head(disk)?)),
        Head::Protected => Ok(plain_order(primary, None)),
        Head::Unprotected => Ok(plain_order(primary, Some(read_head(disk)?))),
    }
}

/// The plan for a GPT.
pub(crate) fn to_gpt<const B: usize, D: Disk<B>>(
    alloc: Global,
    disk: &mut D,
    survey: &Survey,
    wanted: &Layout,
    table: &Table,
    places: Vec<Target<B>>,
) -> Result<Plan<B>, PlanError>
    requires size { IsSectorSize B }
    requires body { wanted.now.body ≡ Gpt table.now }
    requires fits { FitsTable B (D.count disk.old) table.now }
    requires in_range { All (λ t. t.at.0 < D.count disk.old) places.items }
    requires survey { D.tells → IsSurvey B (D.told disk.old).seen survey.now }
    requires start { D.tells → Start B (D.told disk.old).seen survey.now.layout wanted.now }
    requires places { D.tells → AreLabelTargets (D.told disk.old).seen survey.now.layout wanted.now places.items }
    ensures same { OnlyReads D.Disk disk.old disk.new }
    ensures blames { Blames fault_in result (D.faults disk.old) (D.faults disk.new) }
    ensures place { IfErr result (FailedInPlan (PlanReads B (D.count disk.old) wanted.now)) }
    ensures in_range { IfOk result (InRange (D.count disk.old)) }
    ensures some { IfOk result (λ plan. All (λ p. 0 < length p.items) plan.phases.items) }
    ensures plan { D.tells → IfOk result (λ plan. IsPlan B (D.told disk.old).seen wanted.now (phases_of plan)) }
    ensures err { D.tells → IfErr result (Hindered B (D.told disk.old).seen survey.now.layout wanted.now) }
{
    if changes_labels(&survey.layout, wanted) {
        return one_label(alloc, &survey.layout, is_broken(&survey.finding), places);
    }
    let order = order_of(disk, survey.head, survey.primary)?;
    both_copies(alloc, disk.sectors(), survey, &order, table, places)
}
