//! Why a disk doesn't become like another one, with its data.

ghost use Rattle.std.specs.Prelude.{◌≡◌, Some};
ghost use Rattle.pt_carry.specs.Carries.{carry_error_number};
ghost use Rattle.pt_carry.specs.Sentences.{carry_error_sentence, unfit_sentence};
ghost use Rattle.pt_carry.specs.declared.error.CarryError.TheVariants as carry;

use pt_plan::LikeError;
use pt_sector::{FailedRead, Fault, Lba};
use std::error::Error;
use std::fmt;

/// Why a sector isn't carried: the first of these that holds.
#[derive(Clone, Copy, Debug, PartialEq, Eq)]
pub enum Unfit {
    /// The disk ends before it.
    Outside,
    /// A partition of the disk's layout owns it.
    Owned,
    /// It is one of the tables of the disk's layout.
    Table,
    /// It is one of the tables of the other disk's layout.
    NewTable,
    /// Recovery of the disk reads it: what the disk denotes hangs on it.
    Read,
}

impl fmt::Display for Unfit {
    ghost output = { λ why. Some (unfit_sentence why) };

    fn fmt<W: fmt::Write>(&self, f: &mut fmt::Formatter<W>) -> fmt::Result {
        f.write_str(match self {
            Unfit::Outside => "the disk ends before it",
            Unfit::Owned => "a partition of the disk owns it",
            Unfit::Table => "it is one of the disk's tables",
            Unfit::NewTable => "it is one of the other disk's tables",
            Unfit::Read => "the disk's table is read from it",
        })
    }
}

/// Why a disk doesn't become like another one, with its data.
#[derive(Clone, Copy, Debug, PartialEq, Eq)]
pub enum CarryError {
    /// What a plan by which the disk becomes like the other one reported, before anything was flushed or written.
    NotLike(LikeError),
    /// This sector isn't carried, the first of the data. Nothing was flushed or written.
    Refused(Lba, Unfit),
    /// This sector of the other disk couldn't be read. Some of the data may have been written, and nothing else.
    Unread(Lba),
    /// A call of the disk failed before the commit. Some of the data may have been written, and nothing else.
    Device(Fault),
    /// This sector doesn't read as it was written: the disk isn't one that keeps what is written to it. The table wasn't touched.
    Differs(Lba),
    /// What the commit reported. The data stands on the disk.
    Table(LikeError),
}

impl CarryError {
    /// The number that stands for it, from 1 to 6 in the order of the variants.
    pub fn number(self) -> u8
        ensures { result ≡ carry_error_number self }
    {
        match self {
            CarryError::NotLike(_) => 1,
            CarryError::Refused(_, _) => 2,
            CarryError::Unread(_) => 3,
            CarryError::Device(_) => 4,
            CarryError::Differs(_) => 5,
            CarryError::Table(_) => 6,
        }
    }
}

impl fmt::Display for CarryError {
    ghost output = { λ error. Some (carry_error_sentence error) };

    fn fmt<W: fmt::Write>(&self, f: &mut fmt::Formatter<W>) -> fmt::Result {
        match self {
            CarryError::NotLike(error) => fmt::Display::fmt(error, f),
            CarryError::Refused(at, why) => {
                write!(f, "data of sector {} isn't carried: {why}", at.0)
            }
            CarryError::Unread(at) => write!(f, "the other disk: sector {} can't be read", at.0),
            CarryError::Device(fault) => fmt::Display::fmt(fault, f),
            CarryError::Differs(at) => write!(f, "sector {} doesn't read as it was written", at.0),
            CarryError::Table(error) => fmt::Display::fmt(error, f),
        }
    }
}

impl Error for CarryError {}

impl From<LikeError> for CarryError {
    ghost from_gives = { λ error e. e ≡ carry.NotLike error };

    fn from(error: LikeError) -> CarryError {
        CarryError::NotLike(error)
    }
}

impl From<FailedRead> for CarryError {
    ghost from_gives = { λ failed e. e ≡ carry.Unread failed.0 };

    fn from(failed: FailedRead) -> CarryError {
        CarryError::Unread(failed.0)
    }
}

impl From<Fault> for CarryError {
    ghost from_gives = { λ fault e. e ≡ carry.Device fault };

    fn from(fault: Fault) -> CarryError {
        CarryError::Device(fault)
    }
}
