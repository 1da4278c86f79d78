//! Why there is no plan.

ghost use Rattle.std.specs.Prelude.{◌≡◌, Some};
ghost use Rattle.pt_sector.specs.declared.disk.Fault.TheVariants.{Read};
ghost use Rattle.pt_cases.specs.Unplanned.{plan_error_number, plan_failure};
ghost use Rattle.pt_cases.specs.declared.targets.error.PlanError.TheVariants as plan;
ghost use Rattle.pt_cases.specs.Sentences.{plan_error_sentence};

use pt_layout::sound::Finding;
use pt_sector::{FailedRead, Failure, Fault};
use std::alloc::AllocError;
use std::error::Error;
use std::fmt;

/// Why there is no plan for a layout. Where several hold, the first of `Unsound`, `ReusedInOneBatch`, `NotOneSwitch`
/// and `NeedsRepair` is reported; but a layout that the disk can't have is `NotOneSwitch` before its writes are looked at.
#[derive(Clone, Copy, Debug, PartialEq, Eq)]
pub enum PlanError {
    /// No plan leads there by one switch: a sector that decides what the disk denotes would change before it or beside
    /// it. Or the layout is none that this disk may have, or one whose sectors wouldn't read back as written.
    NotOneSwitch,
    /// A sector that would be written is owned by a partition of the disk's present layout.
    ReusedInOneBatch,
    /// Only a label changes, and the copies of the GPT aren't whole.
    NeedsRepair,
    /// The layout isn't sound: the first thing that is wrong with it. Or it leaves a foreign label: the first such slice.
    Unsound(Finding),
    /// The device failed.
    Device(Fault),
    /// Memory was refused.
    Memory,
}

impl PlanError {
    /// The number that stands for it, from 1 to 6 in the order of the variants.
    pub fn number(self) -> u8
        ensures { result ≡ plan_error_number self }
    {
        match self {
            PlanError::NotOneSwitch => 1,
            PlanError::ReusedInOneBatch => 2,
            PlanError::NeedsRepair => 3,
            PlanError::Unsound(_) => 4,
            PlanError::Device(_) => 5,
            PlanError::Memory => 6,
        }
    }
}

impl fmt::Display for PlanError {
    ghost output = { λ error. Some (plan_error_sentence error) };

    fn fmt<W: fmt::Write>(&self, f: &mut fmt::Formatter<W>) -> fmt::Result {
        match self {
            PlanError::NotOneSwitch => f.write_str("no order of writes has one moment of change"),
            PlanError::ReusedInOneBatch => {
                f.write_str("a sector that a partition of the old layout owns would be written")
            }
            PlanError::NeedsRepair => {
                f.write_str("only a label changes, and the GPT needs mending")
            }
            PlanError::Unsound(finding) => write!(f, "the new layout isn't sound: {finding}"),
            PlanError::Device(fault) => fmt::Display::fmt(fault, f),
            PlanError::Memory => f.write_str("out of memory"),
        }
    }
}

impl Error for PlanError {}

impl From<Failure> for PlanError {
    ghost from_gives = { λ failure e. e ≡ plan_failure failure };

    fn from(failure: Failure) -> PlanError {
        match failure {
            Failure::Device(at) => PlanError::Device(Fault::Read(at)),
            Failure::Memory => PlanError::Memory,
        }
    }
}

impl From<FailedRead> for PlanError {
    ghost from_gives = { λ failed e. e ≡ plan.Device (Read failed.0) };

    fn from(failed: FailedRead) -> PlanError {
        PlanError::Device(Fault::Read(failed.0))
    }
}

impl From<AllocError> for PlanError {
    ghost from_gives = { λ _ e. e ≡ plan.Memory };

    fn from(_e: AllocError) -> PlanError {
        PlanError::Memory
    }
}
