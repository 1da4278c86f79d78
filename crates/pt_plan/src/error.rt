//! Why a commit did nothing.

ghost use Rattle.std.specs.Prelude.{◌≡◌, Some};
ghost use Rattle.pt_plan.specs.Commits.{commit_error_number, commit_untabled, commit_failure, commit_unedited, commit_unplanned};
ghost use Rattle.pt_plan.specs.Commits.{commit_unchecked};
ghost use Rattle.pt_plan.specs.declared.error.CommitError.TheVariants as commit;
ghost use Rattle.pt_plan.specs.Sentences.{commit_error_sentence};

use pt_check::{CheckError, Why};
use pt_edit::Refusal;
use pt_layout::NoTable;
use pt_planner::PlanError;
use pt_sector::{Failure, Fault};
use std::alloc::AllocError;
use std::error::Error;
use std::fmt;

/// Why a commit isn't done. A fault of the device in any step is `Device`, and lack of memory in any step is `Memory`,
/// never within another error. After all but `Device` the first flush was done and nothing else.
#[derive(Clone, Copy, Debug, PartialEq, Eq)]
pub enum CommitError {
    /// The disk denotes nothing, for this reason, and the first word but `a` isn't `o`.
    NoTable(NoTable),
    /// The words are refused.
    Edit(Refusal),
    /// There is no plan for what the words make.
    Plan(PlanError),
    /// The plan is refused. A commit never reports it: the checker accepts each plan of the planner.
    Check(Why),
    /// The device failed. After a failed read the first flush was done and nothing else. Otherwise the words may have
    /// been done or not: each disk that a crash may leave denotes the layout before or the one after.
    Device(Fault),
    /// Memory was refused.
    Memory,
}

impl CommitError {
    /// The number that stands for it, from 1 to 6 in the order of the variants.
    pub fn number(self) -> u8
        ensures { result ≡ commit_error_number self }
    {
        match self {
            CommitError::NoTable(_) => 1,
            CommitError::Edit(_) => 2,
            CommitError::Plan(_) => 3,
            CommitError::Check(_) => 4,
            CommitError::Device(_) => 5,
            CommitError::Memory => 6,
        }
    }
}

impl fmt::Display for CommitError {
    ghost output = { λ error. Some (commit_error_sentence error) };

    fn fmt<W: fmt::Write>(&self, f: &mut fmt::Formatter<W>) -> fmt::Result {
        match self {
            CommitError::NoTable(why) => write!(f, "there is no table: {why}"),
            CommitError::Edit(refusal) => fmt::Display::fmt(refusal, f),
            CommitError::Plan(error) => fmt::Display::fmt(error, f),
            CommitError::Check(why) => write!(f, "the plan is refused: {why}"),
            CommitError::Device(fault) => fmt::Display::fmt(fault, f),
            CommitError::Memory => f.write_str("out of memory"),
        }
    }
}

impl Error for CommitError {}

impl From<NoTable> for CommitError {
    ghost from_gives = { λ why e. e ≡ commit_untabled why };

    fn from(why: NoTable) -> CommitError {
        match why {
            NoTable::Device(at) => CommitError::Device(Fault::Read(at)),
            NoTable::Memory => CommitError::Memory,
            why => CommitError::NoTable(why),
        }
    }
}

impl From<AllocError> for CommitError {
    ghost from_gives = { λ _ e. e ≡ commit.Memory };

    fn from(_error: AllocError) -> CommitError {
        CommitError::Memory
    }
}

impl From<Failure> for CommitError {
    ghost from_gives = { λ failure e. e ≡ commit_failure failure };

    fn from(failure: Failure) -> CommitError {
        match failure {
            Failure::Device(at) => CommitError::Device(Fault::Read(at)),
            Failure::Memory => CommitError::Memory,
        }
    }
}

impl From<Fault> for CommitError {
    ghost from_gives = { λ fault e. e ≡ commit.Device fault };

    fn from(fault: Fault) -> CommitError {
        CommitError::Device(fault)
    }
}

impl From<Refusal> for CommitError {
    ghost from_gives = { λ refusal e. e ≡ commit_unedited refusal };

    fn from(refusal: Refusal) -> CommitError {
        match refusal {
            Refusal::Memory => CommitError::Memory,
            refusal => CommitError::Edit(refusal),
        }
    }
}

impl From<PlanError> for CommitError {
    ghost from_gives = { λ error e. e ≡ commit_unplanned error };

    fn from(error: PlanError) -> CommitError {
        match error {
            PlanError::Device(fault) => CommitError::Device(fault),
            PlanError::Memory => CommitError::Memory,
            error => CommitError::Plan(error),
        }
    }
}

impl From<CheckError> for CommitError {
    ghost from_gives = { λ error e. e ≡ commit_unchecked error };

    fn from(error: CheckError) -> CommitError {
        match error {
            CheckError::Device(fault) => CommitError::Device(fault),
            CheckError::Memory => CommitError::Memory,
        }
    }
}
