//! What keeps the checker from an answer.

ghost use Rattle.std.specs.Prelude.{◌≡◌, Some};
ghost use Rattle.pt_sector.specs.declared.disk.Fault.TheVariants.{Read};
ghost use Rattle.pt_check.specs.Answers.{told_failure};
ghost use Rattle.pt_check.specs.declared.error.CheckError.TheVariants.{Device, Memory};
ghost use Rattle.pt_check.specs.Sentences.{check_error_sentence};

use pt_sector::{FailedRead, Failure, Fault};
use std::alloc::AllocError;
use std::error::Error;
use std::fmt;

/// Why there is no answer.
#[derive(Clone, Copy, Debug, PartialEq, Eq)]
pub enum CheckError {
    /// The device failed.
    Device(Fault),
    /// Memory was refused.
    Memory,
}

impl fmt::Display for CheckError {
    ghost output = { λ error. Some (check_error_sentence error) };

    fn fmt<W: fmt::Write>(&self, f: &mut fmt::Formatter<W>) -> fmt::Result {
        match self {
            CheckError::Device(fault) => fmt::Display::fmt(fault, f),
            CheckError::Memory => f.write_str("out of memory"),
        }
    }
}

impl Error for CheckError {}

impl From<FailedRead> for CheckError {
    ghost from_gives = { λ failed e. e ≡ Device (Read failed.0) };

    fn from(failed: FailedRead) -> CheckError {
        CheckError::Device(Fault::Read(failed.0))
    }
}

impl From<AllocError> for CheckError {
    ghost from_gives = { λ _ e. e ≡ Memory };

    fn from(_e: AllocError) -> CheckError {
        CheckError::Memory
    }
}

impl From<Failure> for CheckError {
    ghost from_gives = { λ failure e. e ≡ told_failure failure };

    fn from(failure: Failure) -> CheckError {
        match failure {
            Failure::Device(at) => CheckError::Device(Fault::Read(at)),
            Failure::Memory => CheckError::Memory,
        }
    }
}
