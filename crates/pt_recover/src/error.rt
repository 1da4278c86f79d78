//! Why there is no layout.

ghost use Rattle.std.specs.Prelude.{◌≡◌, Some};
ghost use Rattle.pt_recover.specs.Denotes.{reason_in, told_chain, told_failure, told_reason};
ghost use Rattle.pt_recover.specs.declared.error.NoTable.TheVariants.{Device, Memory};
ghost use Rattle.pt_recover.specs.Sentences.{no_table_sentence};

use pt_gpt::CopyError;
use pt_mbr::ChainError;
use pt_sector::{FailedRead, Failure, Lba};
use std::alloc::AllocError;
use std::error::Error;
use std::fmt;

/// Why a disk denotes nothing: by what is on it, so that no failure is among these.
#[derive(Clone, Copy, Debug, PartialEq, Eq)]
pub enum Reason {
    /// It is no MBR disk, and neither the primary nor the backup copy of a GPT exists: the first fault of each.
    NoCopy(CopyError, CopyError),
    /// It is an MBR disk with one extended partition, whose chain has this first fault.
    Chain(ChainError),
    /// It is an MBR disk with two or more extended partitions. Neither's chain is read.
    TwoExtended,
    /// It is no MBR disk, and has fewer sectors than a GPT takes with one usable one: 68 of 512 bytes, or 12 of 4096.
    TooSmall,
}

/// Why recovery gives no layout: a [`Reason`], exactly where the disk denotes nothing for it, or one of two failures.
#[derive(Clone, Copy, Debug, PartialEq, Eq)]
pub enum NoTable {
    /// It is no MBR disk, and neither the primary nor the backup copy of a GPT exists: the first fault of each.
    NoCopy(CopyError, CopyError),
    /// It is an MBR disk with one extended partition, whose chain has this first fault.
    Chain(ChainError),
    /// It is an MBR disk with two or more extended partitions. Neither's chain is read.
    TwoExtended,
    /// It is no MBR disk, and has fewer sectors than a GPT takes with one usable one: 68 of 512 bytes, or 12 of 4096.
    TooSmall,
    /// The read of this sector failed.
    Device(Lba),
    /// Memory for the layout was refused.
    Memory,
}

impl fmt::Display for NoTable {
    ghost output = { λ why. Some (no_table_sentence why) };

    fn fmt<W: fmt::Write>(&self, f: &mut fmt::Formatter<W>) -> fmt::Result {
        match self {
            NoTable::NoCopy(primary, backup) => write!(
                f,
                "no MBR, and neither copy of a GPT exists: {primary} (primary); {backup} (backup)"
            ),
            NoTable::Chain(error) => fmt::Display::fmt(error, f),
            NoTable::TwoExtended => f.write_str("two records of type 05 or 0F"),
            NoTable::TooSmall => f.write_str("no MBR, and fewer sectors than a GPT takes"),
            NoTable::Device(at) => write!(f, "sector {} can't be read", at.0),
            NoTable::Memory => f.write_str("out of memory"),
        }
    }
}

impl Error for NoTable {}

impl From<FailedRead> for NoTable {
    ghost from_gives = { λ failed e. e ≡ Device failed.0 };

    fn from(failed: FailedRead) -> NoTable {
        NoTable::Device(failed.0)
    }
}

impl From<ChainError> for NoTable {
    ghost from_gives = { λ error e. e ≡ told_chain error };

    fn from(error: ChainError) -> NoTable {
        match error {
            ChainError::Device(at) => NoTable::Device(at),
            error => NoTable::Chain(error),
        }
    }
}

impl From<AllocError> for NoTable {
    ghost from_gives = { λ _ e. e ≡ Memory };

    fn from(_e: AllocError) -> NoTable {
        NoTable::Memory
    }
}

impl From<Failure> for NoTable {
    ghost from_gives = { λ failure e. e ≡ told_failure failure };

    fn from(failure: Failure) -> NoTable {
        match failure {
            Failure::Device(at) => NoTable::Device(at),
            Failure::Memory => NoTable::Memory,
        }
    }
}

impl From<Reason> for NoTable {
    ghost from_gives = { λ reason e. e ≡ told_reason reason };

    fn from(reason: Reason) -> NoTable {
        match reason {
            Reason::NoCopy(primary, backup) => NoTable::NoCopy(primary, backup),
            Reason::Chain(error) => NoTable::Chain(error),
            Reason::TwoExtended => NoTable::TwoExtended,
            Reason::TooSmall => NoTable::TooSmall,
        }
    }
}

impl NoTable {
    /// Why the disk denotes nothing, or the failure that kept recovery from telling: of `Device` and `Memory`.
    pub fn reason(self) -> Result<Reason, Failure>
        ensures { result ≡ reason_in self }
    {
        match self {
            NoTable::NoCopy(primary, backup) => Ok(Reason::NoCopy(primary, backup)),
            NoTable::Chain(error) => Ok(Reason::Chain(error)),
            NoTable::TwoExtended => Ok(Reason::TwoExtended),
            NoTable::TooSmall => Ok(Reason::TooSmall),
            NoTable::Device(at) => Err(Failure::Device(at)),
            NoTable::Memory => Err(Failure::Memory),
        }
    }
}
