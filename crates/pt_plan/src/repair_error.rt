//! Why a repair did nothing.

ghost use Rattle.std.specs.Prelude.{◌≡◌, Some};
ghost use Rattle.pt_plan.specs.Commits.{commit_untabled, commit_failure, commit_unplanned, commit_unchecked};
ghost use Rattle.pt_plan.specs.Repairs.{repair_error_number, repair_told};
ghost use Rattle.pt_plan.specs.declared.repair_error.RepairError.TheVariants as repair;
ghost use Rattle.pt_plan.specs.Sentences.{repair_error_sentence};

use crate::error::CommitError;
use pt_check::{CheckError, Why};
use pt_layout::{Finding, NoTable};
use pt_planner::PlanError;
use pt_sector::{Failure, Fault};
use std::alloc::AllocError;
use std::error::Error;
use std::fmt;

/// Why a disk isn't repaired. A fault of the device in any step is `Device`, and lack of memory in any step is `Memory`,
/// never within another error. After all but `Device` the first flush was done and nothing else.
#[derive(Clone, Copy, Debug, PartialEq, Eq)]
pub enum RepairError {
    /// The disk denotes nothing, for this reason: there is no layout to keep.
    NoTable(NoTable),
    /// The layout isn't sound, or a slice has a foreign label: the first of these findings, which writing the copies of
    /// a table anew wouldn't mend.
    Unsound(Finding),
    /// The device failed. After a failed read the first flush was done and nothing else. Otherwise copies may have been
    /// written or not: each disk that a crash may leave denotes the same layout as before.
    Device(Fault),
    /// Memory was refused.
    Memory,
    /// There is no plan for the disk's own layout. A repair never reports it.
    Plan(PlanError),
    /// The plan is refused. A repair never reports it: the checker accepts each plan of the planner.
    Check(Why),
}

impl RepairError {
    /// The number that stands for it, from 1 to 6 in the order of the variants.
    pub fn number(self) -> u8
        ensures { result ≡ repair_error_number self }
    {
        match self {
            RepairError::NoTable(_) => 1,
            RepairError::Unsound(_) => 2,
            RepairError::Device(_) => 3,
            RepairError::Memory => 4,
            RepairError::Plan(_) => 5,
            RepairError::Check(_) => 6,
        }
    }
}

impl fmt::Display for RepairError {
    ghost output = { λ error. Some (repair_error_sentence error) };

    fn fmt<W: fmt::Write>(&self, f: &mut fmt::Formatter<W>) -> fmt::Result {
        match self {
            RepairError::NoTable(why) => write!(f, "there is no table: {why}"),
            RepairError::Unsound(finding) => write!(f, "a repair leaves it to you: {finding}"),
            RepairError::Device(fault) => fmt::Display::fmt(fault, f),
            RepairError::Memory => f.write_str("out of memory"),
            RepairError::Plan(error) => fmt::Display::fmt(error, f),
            RepairError::Check(why) => write!(f, "the plan is refused: {why}"),
        }
    }
}

impl Error for RepairError {}

/// What a repair reports of an error in the steps that a commit has too. It has no words, so that none are refused; where
/// some were, lack of memory would be reported.
pub(crate) fn told(error: CommitError) -> RepairError
    ensures { result ≡ repair_told error }
{
    match error {
        CommitError::NoTable(why) => RepairError::NoTable(why),
        CommitError::Edit(_) => RepairError::Memory,
        CommitError::Plan(PlanError::Unsound(finding)) => RepairError::Unsound(finding),
        CommitError::Plan(error) => RepairError::Plan(error),
        CommitError::Check(why) => RepairError::Check(why),
        CommitError::Device(fault) => RepairError::Device(fault),
        CommitError::Memory => RepairError::Memory,
    }
}

impl From<NoTable> for RepairError {
    ghost from_gives = { λ why e. e ≡ repair_told (commit_untabled why) };

    fn from(why: NoTable) -> RepairError {
        told(CommitError::from(why))
    }
}

impl From<AllocError> for RepairError {
    ghost from_gives = { λ _ e. e ≡ repair.Memory };

    fn from(_error: AllocError) -> RepairError {
        RepairError::Memory
    }
}

impl From<Failure> for RepairError {
    ghost from_gives = { λ failure e. e ≡ repair_told (commit_failure failure) };

    fn from(failure: Failure) -> RepairError {
        told(CommitError::from(failure))
    }
}

impl From<Fault> for RepairError {
    ghost from_gives = { λ fault e. e ≡ repair.Device fault };

    fn from(fault: Fault) -> RepairError {
        RepairError::Device(fault)
    }
}

impl From<PlanError> for RepairError {
    ghost from_gives = { λ error e. e ≡ repair_told (commit_unplanned error) };

    fn from(error: PlanError) -> RepairError {
        told(CommitError::from(error))
    }
}

impl From<CheckError> for RepairError {
    ghost from_gives = { λ error e. e ≡ repair_told (commit_unchecked error) };

    fn from(error: CheckError) -> RepairError {
        told(CommitError::from(error))
    }
}
