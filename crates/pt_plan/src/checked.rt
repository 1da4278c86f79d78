//! Plans from anywhere: what they would make of a disk, and their application where the checker says that they may be applied.

ghost use Rattle.std.specs.Prelude.{◌≡◌, IfOk, IfErr};
ghost use Rattle.pt_sector.specs.Sectors.{IsSectorSize};
ghost use Rattle.pt_sector.specs.Device.{Blames, LeavesOnly};
ghost use Rattle.pt_sector.specs.Overlays.{OnlyReads};
ghost use Rattle.pt_apply.specs.Plans.{phases_of};
ghost use Rattle.pt_check.specs.Answers.{CheckReads, FailedInCheck, fault_in as fault_in_check};
ghost use Rattle.pt_plan.specs.Batches.{FailedInCommit};
ghost use Rattle.pt_plan.specs.Layouts.{AfterIs};
ghost use Rattle.pt_plan.specs.Commits.{Applied, ApplyFailed, SafelyStopped, commit_fault_in as fault_in};

use crate::error::CommitError;
use pt_apply::{Plan, apply};
use pt_check::{Answer, CheckError, Outcome, Why, check, outcome};
use pt_layout::Layout;
use pt_sector::Disk;
use std::alloc::Global;

/// What a plan makes of a disk.
#[derive(Drop)]
pub enum After {
    /// The plan may be applied, and the disk then denotes this layout.
    Layout(Layout),
    /// It may not: the checker's first reason against it.
    No(Why),
}

/// What the plan would make of the disk as it is now, wherever the plan comes from: the layout that the disk denotes once
/// all of its writes are done, or the checker's first reason against it. Nothing is flushed or written.
///
/// No copy of the disk is made: an overlay holds the plan's writes, and a cache what was read, so that the disk is asked
/// for each sector once.
pub fn layout_after<const B: usize, D: Disk<B>>(
    alloc: Global,
    disk: &mut D,
    plan: &Plan<B>,
) -> Result<After, CheckError>
    requires size { IsSectorSize B }
    ensures same { OnlyReads D.Disk disk.old disk.new }
    ensures blames { Blames fault_in_check result (D.faults disk.old) (D.faults disk.new) }
    ensures place { D.tells → IfErr result (FailedInCheck (CheckReads B (D.told disk.old).seen (phases_of plan.now))) }
    ensures after { D.tells → IfOk result (AfterIs B (D.told disk.old).seen (phases_of plan.now)) }
{
    match outcome(alloc, disk, plan)? {
        Outcome::No(why) => Ok(After::No(why)),
        Outcome::Yes { layout, .. } => Ok(After::Layout(layout)),
    }
}

/// Flushes the disk, so that what a read gives is durable, checks the plan, and applies it after a yes.
///
/// A crash within the call leaves what it could leave before, or a disk stopped in a plan that is safe. After a no, want
/// of memory and a failed read the first flush was done and nothing else.
pub fn apply_checked<const B: usize, D: Disk<B>>(
    alloc: Global,
    disk: &mut D,
    plan: &Plan<B>,
) -> Result<Answer, CommitError>
    requires size { IsSectorSize B }
    ensures count { D.count disk.new ≡ D.count disk.old }
    ensures name { D.name disk.new ≡ D.name disk.old }
    ensures blames { Blames fault_in result (D.faults disk.old) (D.faults disk.new) }
    ensures place { D.tells → IfErr result (FailedInCommit (CheckReads B (D.told disk.old).seen (phases_of plan.now))) }
    ensures applied { D.tells → IfOk result (Applied B (phases_of plan.now) (D.told disk.old) (D.told disk.new)) }
    ensures failed { D.tells → IfErr result (ApplyFailed B (phases_of plan.now) (D.told disk.old) (D.told disk.new)) }
    ensures any_moment { D.tells → LeavesOnly (D.told disk.old) (D.told disk.new)
        (SafelyStopped B (phases_of plan.now) (D.told disk.old).seen) }
{
    disk.flush()?;
    let answer = check(alloc, disk, plan)?;
    match answer {
        Answer::No(_) => Ok(answer),
        Answer::Yes { .. } => {
            apply(disk, plan)?;
            Ok(answer)
        }
    }
}
