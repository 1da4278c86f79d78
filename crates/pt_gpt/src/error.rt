//! Why a copy of the table can't be read.

ghost use Rattle.std.specs.Prelude.{◌≡◌, ◌↔◌, IsTrue, Some};
ghost use Rattle.pt_gpt.specs.Copies.{error_number, failure_in};
ghost use Rattle.pt_gpt.specs.declared.error.CopyError.TheVariants.{Device, Memory};
ghost use Rattle.pt_gpt.specs.Sentences.{copy_error_sentence};

use pt_sector::{FailedRead, Failure, Lba};
use std::alloc::AllocError;
use std::error::Error;
use std::fmt;

/// Why a copy of the table can't be read: of the first nine the first that holds, in this order.
///
/// A header's fields are those of UEFI 2.10, 5.3.2. `B` is the number of bytes of a sector, N the number of sectors
/// and A the number of sectors of 128 entries, 16384 / `B`.
#[derive(Clone, Copy, Debug, PartialEq, Eq)]
pub enum CopyError {
    /// The header's sector doesn't begin with "EFI PART".
    Signature,
    /// The revision isn't 1.0.
    Revision,
    /// The header's size isn't from 92 to `B`.
    HeaderSize,
    /// The header has another CRC-32 than it says.
    HeaderCrc,
    /// MyLBA isn't the sector where the header stands.
    MyLba,
    /// The array doesn't begin beside the header: in sector 2, or in sector N - A - 1.
    ArrayPlace,
    /// The number of entries isn't from 1 to 128, or their size isn't 128.
    EntryShape,
    /// Not A + 2 <= first usable <= last usable <= N - A - 2.
    UsableRange,
    /// The array has another CRC-32 than the header says.
    ArrayCrc,
    /// The read of this sector failed.
    Device(Lba),
    /// There was no memory for the entries.
    Memory,
}

impl fmt::Display for CopyError {
    ghost output = { λ error. Some (copy_error_sentence error) };

    fn fmt<W: fmt::Write>(&self, f: &mut fmt::Formatter<W>) -> fmt::Result {
        let text = match self {
            CopyError::Signature => "the signature isn't EFI PART",
            CopyError::Revision => "the revision isn't 1.0",
            CopyError::HeaderSize => "the header's size isn't from 92 to that of a sector",
            CopyError::HeaderCrc => "the header's CRC is wrong",
            CopyError::MyLba => "the header names another sector as its own",
            CopyError::ArrayPlace => "the array isn't beside the header",
            CopyError::EntryShape => "there aren't 1 to 128 entries of 128 bytes",
            CopyError::UsableRange => "the usable sectors aren't in order and clear of both copies",
            CopyError::ArrayCrc => "the array's CRC is wrong",
            CopyError::Device(at) => return write!(f, "sector {} can't be read", at.0),
            CopyError::Memory => "out of memory",
        };
        f.write_str(text)
    }
}

impl Error for CopyError {}

impl From<FailedRead> for CopyError {
    ghost from_gives = { λ failed e. e ≡ Device failed.0 };

    fn from(failed: FailedRead) -> CopyError {
        CopyError::Device(failed.0)
    }
}

impl From<AllocError> for CopyError {
    ghost from_gives = { λ _ e. e ≡ Memory };

    fn from(_e: AllocError) -> CopyError {
        CopyError::Memory
    }
}

impl CopyError {
    /// The number that stands for it in what is printed, from 1 to 11 in the order of the variants.
    pub fn number(self) -> u8
        ensures { result ≡ error_number self }
    {
        match self {
            CopyError::Signature => 1,
            CopyError::Revision => 2,
            CopyError::HeaderSize => 3,
            CopyError::HeaderCrc => 4,
            CopyError::MyLba => 5,
            CopyError::ArrayPlace => 6,
            CopyError::EntryShape => 7,
            CopyError::UsableRange => 8,
            CopyError::ArrayCrc => 9,
            CopyError::Device(_) => 10,
            CopyError::Memory => 11,
        }
    }

    /// The failure that it is, if what is on the disk doesn't explain it: of `Device` and `Memory`.
    pub fn failure(self) -> Option<Failure>
        ensures { result ≡ failure_in self }
    {
        match self {
            CopyError::Device(at) => Some(Failure::Device(at)),
            CopyError::Memory => Some(Failure::Memory),
            _ => None,
        }
    }
}
