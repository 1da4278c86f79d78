//! Why a disk doesn't become like another one.

ghost use Rattle.std.specs.Prelude.{◌≡◌, Some};
ghost use Rattle.pt_plan.specs.Layouts.{like_error_number};
ghost use Rattle.pt_plan.specs.declared.like_error.LikeError.TheVariants as like;
ghost use Rattle.pt_plan.specs.Sentences.{like_error_sentence};

use crate::error::CommitError;
use pt_layout::NoTable;
use std::error::Error;
use std::fmt;

/// Why a disk doesn't become like another one. An error of the other disk is never reported as one of the disk, nor the other
/// way round.
#[derive(Clone, Copy, Debug, PartialEq, Eq)]
pub enum LikeError {
    /// The two disks have different numbers of sectors. Neither was read, flushed or written.
    OtherSize,
    /// What [`recover`](pt_layout::recover) reported of the other disk: why it denotes nothing, or that it couldn't be read, or
    /// that memory was refused. The disk itself wasn't read, flushed or written.
    Other(NoTable),
    /// What a commit of the other disk's layout reported of the disk. `NoTable`, `Edit` and `Check` are never reported.
    Disk(CommitError),
}

impl LikeError {
    /// The number that stands for it, from 1 to 3 in the order of the variants.
    pub fn number(self) -> u8
        ensures { result ≡ like_error_number self }
    {
        match self {
            LikeError::OtherSize => 1,
            LikeError::Other(_) => 2,
            LikeError::Disk(_) => 3,
        }
    }
}

impl fmt::Display for LikeError {
    ghost output = { λ error. Some (like_error_sentence error) };

    fn fmt<W: fmt::Write>(&self, f: &mut fmt::Formatter<W>) -> fmt::Result {
        match self {
            LikeError::OtherSize => f.write_str("the other disk has another number of sectors"),
            LikeError::Other(why) => write!(f, "the other disk: {why}"),
            LikeError::Disk(error) => fmt::Display::fmt(error, f),
        }
    }
}

impl Error for LikeError {}

impl From<NoTable> for LikeError {
    ghost from_gives = { λ why e. e ≡ like.Other why };

    fn from(why: NoTable) -> LikeError {
        LikeError::Other(why)
    }
}

impl From<CommitError> for LikeError {
    ghost from_gives = { λ error e. e ≡ like.Disk error };

    fn from(error: CommitError) -> LikeError {
        LikeError::Disk(error)
    }
}
