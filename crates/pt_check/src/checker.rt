//! Whether a plan may be applied.

ghost use Rattle.std.specs.Prelude.{◌≡◌, ◌≢◌, ◌≤◌, Some, None, length, IfOk, IfErr};
ghost use Rattle.pt_members.specs.declared.layout.Layout.{Layout as Denoted};
ghost use Rattle.pt_sector.specs.Device.{Blames};
ghost use Rattle.pt_sector.specs.Overlays.{OnlyReads, read_of};
ghost use Rattle.pt_sector.specs.Sectors.{IsSectorSize};
ghost use Rattle.pt_apply.specs.Plans.{phases_of, writes_in};
ghost use Rattle.pt_layout.specs.Surveys.{IsSurvey};
ghost use Rattle.pt_check.specs.Answers.{Answers, Promises, WritesFit, switch_number, CheckReads, WritesHead, fault_in, FailedInCheck};
ghost use Rattle.pt_check.specs.Answers.{IsFit, OutcomeIs, answer_of, layout_of};
ghost use Rattle.pt_check.specs.inner.Answers.{IsKnown, AreInRange, AreJudged, concluded, MisplacedIs};

use crate::answer::{Answer, Outcome, Why};
use crate::boot::other_boot_code;
use crate::denoted::read_denoted;
use crate::error::CheckError;
use crate::finished::read_finished;
use crate::places::{OutOfRange, first_owned, first_stray, is_clear};
use crate::trial::{Layouts, Trial, try_phases};
use crate::writes::{count_writes, first_in_plan};
use pt_apply::Plan;
use pt_gpt::LastArray;
use pt_layout::{Finding, Layout, Survey, Trace};
use pt_sector::{Disk, FailedRead, ReadCache, Room};
use std::alloc::{AllocError, Global};

/// Whether the plan may be applied to the disk as it is now, wherever the plan comes from.
///
/// After a yes, whatever the disk denotes and the finished disk denotes: every disk that a stop within the plan's
/// writes may leave denotes the old layout before the switch's phase, the new one after it, and one of the two in it;
/// it differs from the disk in no sector outside these layouts' tables, in none that a partition of either owns and
/// in no byte of the boot code (bytes 0 to 439 of sector 0); and the finished disk is healthy. A stop is in a phase
/// from the end of the flush before it to the end of its own, with any choice of that phase's writes done.
///
/// No copy of the disk is made: an overlay holds the plan's writes, 4,096 at most, and a cache what was read, so that the
/// disk is asked for each sector once.
pub fn check<const B: usize, D: Disk<B>>(
    alloc: Global,
    disk: &mut D,
    plan: &Plan<B>,
) -> Result<Answer, CheckError>
    requires size { IsSectorSize B }
    ensures same { OnlyReads D.Disk disk.old disk.new }
    ensures blames { Blames fault_in result (D.faults disk.old) (D.faults disk.new) }
    ensures place { D.tells → IfErr result (FailedInCheck (CheckReads B (D.told disk.old).seen (phases_of plan.now))) }
    ensures in_range { IfOk result (λ a. WritesFit (D.count disk.old) plan.now a) }
    ensures answers { D.tells → IfOk result (λ a. Answers B (D.told disk.old).seen (phases_of plan.now) a) }
    ensures promises { D.tells → IfOk result (λ a. Promises B (D.told disk.old).seen (phases_of plan.now) a) }
{
    let outcome = outcome(alloc, disk, plan)?;
    Ok(outcome.answer())
}

/// The same answer, with the layout that the finished disk denotes after a yes.
pub fn outcome<const B: usize, D: Disk<B>>(
    alloc: Global,
    disk: &mut D,
    plan: &Plan<B>,
) -> Result<Outcome, CheckError>
    requires size { IsSectorSize B }
    ensures same { OnlyReads D.Disk disk.old disk.new }
    ensures blames { Blames fault_in result (D.faults disk.old) (D.faults disk.new) }
    ensures place { D.tells → IfErr result (FailedInCheck (CheckReads B (D.told disk.old).seen (phases_of plan.now))) }
    ensures in_range { IfOk result (λ x. WritesFit (D.count disk.old) plan.now (answer_of x)) }
    ensures outcome { D.tells → IfOk result (OutcomeIs B (D.told disk.old).seen (phases_of plan.now)) }
{
    let room = Room::for_cache(alloc)?;
    let mut cache = ReadCache::new(disk, room);
    let mut last = LastArray::new(alloc);
    let (old, trace) = read_denoted(alloc, &mut cache, &mut last)?;
    outcome_known(alloc, &mut cache, plan, old, trace)
}

/// The answer, where the disk was surveyed: what the survey tells isn't read before the first phase. After each phase its sectors are
/// read again, so a caller gives a [`ReadCache`] over the disk.
pub fn check_known<const B: usize, D: Disk<B>>(
    alloc: Global,
    disk: &mut D,
    plan: &Plan<B>,
    survey: Survey,
) -> Result<Answer, CheckError>
    requires size { IsSectorSize B }
    requires survey { D.tells → IsSurvey B (D.told disk.old).seen survey }
    ensures same { OnlyReads D.Disk disk.old disk.new }
    ensures blames { Blames fault_in result (D.faults disk.old) (D.faults disk.new) }
    ensures place { D.tells → IfErr result (FailedInCheck (CheckReads B (D.told disk.old).seen (phases_of plan.now))) }
    ensures in_range { IfOk result (λ a. WritesFit (D.count disk.old) plan.now a) }
    ensures answers { D.tells → IfOk result (λ a. Answers B (D.told disk.old).seen (phases_of plan.now) a) }
    ensures promises { D.tells → IfOk result (λ a. Promises B (D.told disk.old).seen (phases_of plan.now) a) }
{
    let (old, _, trace) = survey.into_parts();
    let outcome = outcome_known(alloc, disk, plan, old, trace)?;
    Ok(outcome.answer())
}

/// The outcome, where it is known what the disk denotes.
fn outcome_known<const B: usize, D: Disk<B>>(
    alloc: Global,
    disk: &mut D,
    plan: &Plan<B>,
    old: Option<Layout>,
    trace: Trace,
) -> Result<Outcome, CheckError>
    requires size { IsSectorSize B }
    requires known { D.tells → IsKnown B (D.told disk.old).seen old trace }
    ensures same { OnlyReads D.Disk disk.old disk.new }
    ensures blames { Blames fault_in result (D.faults disk.old) (D.faults disk.new) }
    ensures place { D.tells → IfErr result (FailedInCheck (CheckReads B (D.told disk.old).seen (phases_of plan.now))) }
    ensures in_range { IfOk result (λ x. WritesFit (D.count disk.old) plan.now (answer_of x)) }
    ensures outcome { D.tells → IfOk result (OutcomeIs B (D.told disk.old).seen (phases_of plan.now)) }
{
    match judge_writes(disk, plan)? {
        Judged::Refused(why) => Ok(Outcome::No(why)),
        Judged::Fit(count) => check_phases(alloc, disk, plan, count, old, trace),
    }
}

/// What the writes by themselves come to: a reason against the plan, or their number.
#[derive(Clone, Copy)]
enum Judged {
    Refused(Why),
    Fit(usize),
}

/// Whether the writes are few, each of a sector of the disk, and none of another boot code.
fn judge_writes<const B: usize, D: Disk<B>>(
    disk: &mut D,
    plan: &Plan<B>,
) -> Result<Judged, FailedRead>
    requires size { IsSectorSize B }
    ensures same { OnlyReads D.Disk disk.old disk.new }
    ensures blames { Blames read_of result (D.faults disk.old) (D.faults disk.new) }
    ensures place { IfErr result (λ e. (e.0.0 ≡ 0) × WritesHead (phases_of plan.now)) }
    ensures in_range { IfOk result (AreInRange (D.count disk.old) plan.now) }
    ensures judged { D.tells → IfOk result (AreJudged B (D.told disk.old).seen (phases_of plan.now)) }
{
    let count = match count_writes(plan) {
        Some(count) => count,
        None => return Ok(Judged::Refused(Why::TooManyWrites)),
    };
    let sectors = disk.sectors();
    if let Some(found) = first_in_plan(&OutOfRange { sectors }, plan) {
        return Ok(Judged::Refused(Why::OutOfRange(found.number)));
    }
    match other_boot_code(disk, plan)? {
        None => Ok(Judged::Fit(count)),
        Some(number) => Ok(Judged::Refused(Why::BootCode(number))),
    }
}

/// The outcome of a plan whose writes are few, each of a sector of the disk, and none of another boot code.
fn check_phases<const B: usize, D: Disk<B>>(
    alloc: Global,
    disk: &mut D,
    plan: &Plan<B>,
    count: usize,
    old: Option<Layout>,
    trace: Trace,
) -> Result<Outcome, CheckError>
    requires size { IsSectorSize B }
    requires few { length (writes_in (phases_of plan.now)) ≤ 4096 }
    requires room { count ≡ length (writes_in (phases_of plan.now)) }
    requires fit { D.tells → IsFit (D.told disk.old).seen (phases_of plan.now) }
    requires known { D.tells → IsKnown B (D.told disk.old).seen old trace }
    ensures same { OnlyReads D.Disk disk.old disk.new }
    ensures blames { Blames fault_in result (D.faults disk.old) (D.faults disk.new) }
    ensures place { D.tells → IfErr result (FailedInCheck (CheckReads B (D.told disk.old).seen (phases_of plan.now))) }
    ensures outcome { D.tells → IfOk result (OutcomeIs B (D.told disk.old).seen (phases_of plan.now)) }
{
    let mut last = LastArray::new(alloc);
    let end = read_finished(alloc, disk, plan, count, &mut last)?;
    let (new, finding, end) = end.into_parts();
    let layouts = Layouts { old, new };
    let trial = try_phases(alloc, disk, plan, count, &layouts, trace, &end, &mut last)?;
    let misplaced = misplaced(alloc, plan, &layouts)?;
    Ok(conclude(trial, misplaced, finding, layouts.into_new()))
}

/// The outcome from its parts: the first reason against the plan, or the switch. What is wrong with the finished disk comes last; where
/// nothing is, it denotes a layout.
fn conclude(
    trial: Trial,
    misplaced: Option<Why>,
    finding: Option<Finding>,
    new: Option<Layout>,
) -> Outcome
    requires { finding ≡ None → new ≢ None }
    ensures answer { answer_of result ≡ concluded trial misplaced finding }
    ensures layout { (o : Denoted) → layout_of result ≡ Some o → new ≡ Some o }
{
    let switch = match trial {
        Trial::Passed(switch) => switch,
        Trial::Refused(why) => return Outcome::No(why),
    };
    if let Some(why) = misplaced {
        return Outcome::No(why);
    }
    match (finding, new) {
        (Some(finding), _) => Outcome::No(Why::Final(finding)),
        (None, Some(layout)) => Outcome::Yes {
            switch: number(switch),
            layout,
        },
        (None, None) => unreachable!(),
    }
}

/// The first write of a sector in the tables of neither layout, else the first of one that is owned in either.
fn misplaced<const B: usize>(
    alloc: Global,
    plan: &Plan<B>,
    layouts: &Layouts,
) -> Result<Option<Why>, AllocError>
    requires size { IsSectorSize B }
    requires few { length (writes_in (phases_of plan.now)) ≤ 4096 }
    ensures { IfOk result (MisplacedIs B (writes_in (phases_of plan.now)) layouts.now.old layouts.now.new) }
{
    if let Some(found) = first_stray(alloc, plan, layouts)? {
        return Ok(Some(Why::NotATable(found.lba)));
    }
    if is_clear(&layouts.old, plan) && is_clear(&layouts.new, plan) {
        return Ok(None);
    }
    match first_owned(alloc, plan, layouts)? {
        Some(found) => Ok(Some(Why::Owned(found.lba))),
        None => Ok(None),
    }
}

/// The switch as it is reported.
fn number(switch: Option<u64>) -> u64
    ensures { result ≡ switch_number switch }
{
    match switch {
        Some(phase) => phase,
        None => 0,
    }
}
