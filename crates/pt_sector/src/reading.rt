//! Reading, and the failures that a call which only reads may meet.

ghost use Rattle.std.specs.Prelude.{◌≡◌, ◌<◌, Option, Some, OnOk, IfErr};
ghost use Rattle.pt_sector.specs.declared.disk.Fault.{Fault};
ghost use Rattle.pt_sector.specs.declared.disk.Fault.TheVariants.{Read};
ghost use Rattle.pt_sector.specs.Sectors.{sector};
ghost use Rattle.pt_sector.specs.Device.{Blames};
ghost use Rattle.pt_sector.specs.Overlays.{OnlyReads, read_of};
ghost use Rattle.pt_sector.specs.declared.reading.Failure.TheVariants as failure;
ghost use Rattle.pt_sector.specs.Sentences.{failed_read_sentence, failure_sentence};

use crate::address::Lba;
use crate::disk::Disk;
use std::alloc::AllocError;
use std::error::Error;
use std::fmt;

/// The sector whose read failed.
#[derive(Clone, Copy, Debug, PartialEq, Eq)]
pub struct FailedRead(pub Lba);

impl fmt::Display for FailedRead {
    ghost output = { λ failed. Some (failed_read_sentence failed) };

    fn fmt<W: fmt::Write>(&self, f: &mut fmt::Formatter<W>) -> fmt::Result {
        write!(f, "sector {} can't be read", self.0.0)
    }
}

impl Error for FailedRead {}

/// Why a call that only reads gives no answer, where what is on the disk doesn't explain it.
#[derive(Clone, Copy, Debug, PartialEq, Eq)]
pub enum Failure {
    /// The read of this sector failed.
    Device(Lba),
    /// Memory was refused.
    Memory,
}

impl fmt::Display for Failure {
    ghost output = { λ failure. Some (failure_sentence failure) };

    fn fmt<W: fmt::Write>(&self, f: &mut fmt::Formatter<W>) -> fmt::Result {
        match self {
            Failure::Device(at) => write!(f, "sector {} can't be read", at.0),
            Failure::Memory => f.write_str("out of memory"),
        }
    }
}

impl Error for Failure {}

impl From<FailedRead> for Failure {
    ghost from_gives = { λ failed e. e ≡ failure.Device failed.0 };

    fn from(failed: FailedRead) -> Failure {
        Failure::Device(failed.0)
    }
}

impl From<AllocError> for Failure {
    ghost from_gives = { λ _ e. e ≡ failure.Memory };

    fn from(_e: AllocError) -> Failure {
        Failure::Memory
    }
}

/// Reads one sector, and says of a failure the one thing that is open: where. After `Err`, what `into` holds is open.
pub fn read_sector<const B: usize, D: Disk<B>>(
    disk: &mut D,
    lba: Lba,
    into: &mut [u8; B],
) -> Result<(), FailedRead>
    requires { lba.0 < D.count disk.old }
    ensures same { OnlyReads D.Disk disk.old disk.new }
    ensures blames { Blames read_of result (D.faults disk.old) (D.faults disk.new) }
    ensures fault { IfErr result (λ e. e.0 ≡ lba) }
    ensures bytes { D.tells → OnOk result (into.new ≡ sector (D.told disk.old).seen lba.0) }
{
    match disk.read(lba, into) {
        Ok(()) => Ok(()),
        Err(_) => Err(FailedRead(lba)),
    }
}
