//! What the library's errors come to.

ghost use Rattle.std.specs.Prelude.{◌≡◌};
ghost use Rattle.pt_answers.specs.Failures.{as_device as device_error, carry_failure, commit_failure, draft_failure, like_failure};
ghost use Rattle.pt_answers.specs.Failures.{line_failure, repair_failure, runs_failure, set_failure};
ghost use Rattle.pt_answers.specs.Failures.{unchecked_failure, unread_failure};
ghost use Rattle.pt_answers.specs.declared.failure.Failure.TheVariants as failure;

use crate::failure::Failure;
use pt_carry::{CarryError, RunsError};
use pt_check::CheckError;
use pt_disks::{NoDevice, OpenError};
use pt_drafts::DraftError;
use pt_layout::{NoTable, VerifyError};
use pt_line::LineError;
use pt_plan::{CommitError, LikeError, RepairError};
use pt_sector::Fault;
use pt_set::SetError;
use std::alloc::AllocError;

impl From<LineError> for Failure {
    ghost from_gives = { λ error f. f ≡ line_failure error };

    fn from(error: LineError) -> Failure {
        match error {
            LineError::NotText => Failure::NotText,
            LineError::Usage(error) => Failure::Usage(error),
            LineError::InUseAlone => Failure::InUseAlone,
            LineError::TwoForms => Failure::TwoForms,
            LineError::PlanWithData => Failure::PlanWithData,
            LineError::Memory => Failure::Memory,
        }
    }
}

impl From<NoDevice> for Failure {
    ghost from_gives = { λ why f. f ≡ failure.Opening why };

    fn from(why: NoDevice) -> Failure {
        Failure::Opening(why)
    }
}

impl From<OpenError> for Failure {
    ghost from_gives = { λ error f. f ≡ failure.Opening (device_error error) };

    fn from(error: OpenError) -> Failure {
        Failure::Opening(as_device(error))
    }
}

/// Why a file isn't opened, as of a device.
pub fn as_device(error: OpenError) -> NoDevice
    ensures { result ≡ device_error error }
{
    match error {
        OpenError::NoFile => NoDevice::Unopened,
        OpenError::Locked => NoDevice::Locked,
    }
}

impl From<NoTable> for Failure {
    ghost from_gives = { λ why f. f ≡ failure.NoTable why };

    fn from(why: NoTable) -> Failure {
        Failure::NoTable(why)
    }
}

impl From<VerifyError> for Failure {
    ghost from_gives = { λ error f. f ≡ unread_failure error };

    fn from(error: VerifyError) -> Failure {
        match error {
            VerifyError::Device(at) => Failure::Fault(Fault::Read(at)),
            VerifyError::Memory => Failure::Memory,
        }
    }
}

impl From<AllocError> for Failure {
    ghost from_gives = { λ _ f. f ≡ failure.Memory };

    fn from(_error: AllocError) -> Failure {
        Failure::Memory
    }
}

impl From<CheckError> for Failure {
    ghost from_gives = { λ error f. f ≡ unchecked_failure error };

    fn from(error: CheckError) -> Failure {
        match error {
            CheckError::Device(fault) => Failure::Fault(fault),
            CheckError::Memory => Failure::Memory,
        }
    }
}

impl From<CommitError> for Failure {
    ghost from_gives = { λ error f. f ≡ commit_failure error };

    fn from(error: CommitError) -> Failure {
        match error {
            CommitError::NoTable(why) => Failure::NoTable(why),
            CommitError::Edit(why) => Failure::Edit(why),
            CommitError::Plan(why) => Failure::Plan(why),
            CommitError::Check(why) => Failure::Check(why),
            CommitError::Device(fault) => Failure::Fault(fault),
            CommitError::Memory => Failure::Memory,
        }
    }
}

impl From<LikeError> for Failure {
    ghost from_gives = { λ error f. f ≡ like_failure error };

    fn from(error: LikeError) -> Failure {
        match error {
            LikeError::OtherSize => Failure::OtherSize,
            LikeError::Other(why) => Failure::Other(why),
            LikeError::Disk(error) => Failure::from(error),
        }
    }
}

impl From<CarryError> for Failure {
    ghost from_gives = { λ error f. f ≡ carry_failure error };

    fn from(error: CarryError) -> Failure {
        match error {
            CarryError::NotLike(error) | CarryError::Table(error) => Failure::from(error),
            CarryError::Refused(at, why) => Failure::Unfit(at, why),
            CarryError::Unread(at) => Failure::Other(NoTable::Device(at)),
            CarryError::Device(fault) => Failure::Fault(fault),
            CarryError::Differs(at) => Failure::Differs(at),
        }
    }
}

impl From<RunsError> for Failure {
    ghost from_gives = { λ error f. f ≡ runs_failure error };

    fn from(error: RunsError) -> Failure {
        match error {
            RunsError::BadLine(line) => Failure::BadData(line),
            RunsError::Memory => Failure::Memory,
        }
    }
}

impl From<DraftError> for Failure {
    ghost from_gives = { λ error f. f ≡ draft_failure error };

    fn from(error: DraftError) -> Failure {
        match error {
            DraftError::Fault(fault) => Failure::Table(fault),
            DraftError::Memory => Failure::Memory,
        }
    }
}

impl From<SetError> for Failure {
    ghost from_gives = { λ error f. f ≡ set_failure error };

    fn from(error: SetError) -> Failure {
        match error {
            SetError::Fault(fault) => Failure::Table(fault),
            SetError::Disk(error) => Failure::from(error),
        }
    }
}

impl From<RepairError> for Failure {
    ghost from_gives = { λ error f. f ≡ repair_failure error };

    fn from(error: RepairError) -> Failure {
        match error {
            RepairError::NoTable(why) => Failure::NoTable(why),
            RepairError::Device(fault) => Failure::Fault(fault),
            RepairError::Memory => Failure::Memory,
            refusal => Failure::Repair(refusal),
        }
    }
}
