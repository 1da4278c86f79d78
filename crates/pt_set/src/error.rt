//! Why a disk doesn't take the table of a draft.

ghost use Rattle.std.specs.Prelude.{◌≡◌, Some};
ghost use Rattle.pt_set.specs.Sets.{draft_failure, set_error_sentence};
ghost use Rattle.pt_set.specs.declared.error.SetError.TheVariants as set_error;

use pt_drafts::{DraftError, TextFault};
use pt_plan::CommitError;
use std::error::Error;
use std::fmt;

/// Why a disk doesn't take the table of a draft.
#[derive(Clone, Copy, Debug, PartialEq, Eq)]
pub enum SetError {
    /// The draft's first fault. The disk was only read.
    Fault(TextFault),
    /// The disk couldn't be read, or what a commit of the layout reported of it; or there is no memory.
    Disk(CommitError),
}

impl fmt::Display for SetError {
    ghost output = { λ error. Some (set_error_sentence error) };

    fn fmt<W: fmt::Write>(&self, f: &mut fmt::Formatter<W>) -> fmt::Result {
        match self {
            SetError::Fault(fault) => fmt::Display::fmt(fault, f),
            SetError::Disk(error) => fmt::Display::fmt(error, f),
        }
    }
}

impl Error for SetError {}

impl From<DraftError> for SetError {
    ghost from_gives = { λ error e. e ≡ draft_failure error };

    fn from(error: DraftError) -> SetError {
        match error {
            DraftError::Fault(fault) => SetError::Fault(fault),
            DraftError::Memory => SetError::Disk(CommitError::Memory),
        }
    }
}

impl From<CommitError> for SetError {
    ghost from_gives = { λ error e. e ≡ set_error.Disk error };

    fn from(error: CommitError) -> SetError {
        SetError::Disk(error)
    }
}
