ghost use Rattle.std.specs.Prelude.{◌≡◌, ◌<◌, ◌≤◌, ◌*◌, ◌^◌, ℕ, List, length, Some, OnOk, OnErr, IfErr};
ghost use Rattle.pt_sector.specs.declared.disk.Fault.{Fault};
ghost use Rattle.pt_sector.specs.declared.disk.Fault.TheVariants.{Read, Write, Flush};
ghost use Rattle.pt_sector.specs.Sectors.{sector};
ghost use Rattle.pt_sector.specs.Device.{Told, MayLeave, Wrote, FailedWrite, Flushed, FailedFlush, Blames, Untouched};
ghost use Rattle.pt_sector.specs.Sentences.{fault_sentence};

use crate::address::Lba;
use std::error::Error;
use std::fmt;

/// A call of a disk that failed.
#[derive(Clone, Copy, Debug, PartialEq, Eq)]
pub enum Fault {
    Read(Lba),
    Write(Lba),
    Flush,
}

impl fmt::Display for Fault {
    ghost output = { λ fault. Some (fault_sentence fault) };

    fn fmt<W: fmt::Write>(&self, f: &mut fmt::Formatter<W>) -> fmt::Result {
        let (at, failed) = match self {
            Fault::Read(at) => (at, " can't be read"),
            Fault::Write(at) => (at, " can't be written"),
            Fault::Flush => return f.write_str("the disk can't be flushed"),
        };
        write!(f, "sector {}{failed}", at.0)
    }
}

impl Error for Fault {}

/// A disk with sectors of `B` bytes, 512 or 4096.
///
/// Of its content a disk tells all or nothing. What it tells is bound by the clauses: what a read gives, what is
/// durable, which writes are pending, and what a crash at some moment may have left (docs/model.md, "A device").
pub trait Disk<const B: usize> {
    /// Whether disks of this type tell their content.
    ghost tells: { Type 0 };

    /// What one tells.
    ghost told: { Self → Told };

    /// How many sectors it has.
    ghost count: { Self → ℕ };

    /// The faults of its calls that failed, the oldest first.
    ghost faults: { Self → List Fault };

    /// The name of the borrow that it holds, or 0.
    ghost name: { Self → ℕ };

    /// What calls that only read keep of the disk that it borrows.
    ghost reads: { Self → Self → Type 0 };

    /// The number of sectors.
    fn sectors(&self) -> u64
        ensures { result ≡ count self.now };

    /// Reads one sector. After `Err`, what `into` holds is open.
    fn read(&mut self, lba: Lba, into: &mut [u8; B]) -> Result<(), Fault>
        requires { lba.0 < count self.old }
        ensures same { Untouched count name reads tells told faults self.old self.new }
        ensures blames { Blames Some result (faults self.old) (faults self.new) }
        ensures fault { IfErr result (λ e. e ≡ Read lba) }
        ensures bytes { tells → OnOk result (into.new ≡ sector (told self.old).seen lba.0) };

    /// Writes one sector. It may stay pending until a flush.
    fn write(&mut self, lba: Lba, bytes: &[u8; B]) -> Result<(), Fault>
        requires { lba.0 < count self.old }
        ensures count { count self.new ≡ count self.old }
        ensures name { name self.new ≡ name self.old }
        ensures blames { Blames Some result (faults self.old) (faults self.new) }
        ensures fault { IfErr result (λ e. e ≡ Write lba) }
        ensures done { tells → OnOk result (Wrote (told self.old) (told self.new) lba.0 bytes.now) }
        ensures failed { tells → OnErr result (FailedWrite (told self.old) (told self.new) lba.0 bytes.now) };

    /// Makes all that was written durable.
    fn flush(&mut self) -> Result<(), Fault>
        ensures count { count self.new ≡ count self.old }
        ensures name { name self.new ≡ name self.old }
        ensures blames { Blames Some result (faults self.old) (faults self.new) }
        ensures fault { IfErr result (λ e. e ≡ Flush) }
        ensures done { tells → OnOk result (Flushed (told self.old) (told self.new)) }
        ensures failed { tells → OnErr result (FailedFlush (told self.old) (told self.new)) };

    ghost reads_same: { (a : Self) → Untouched count name reads tells told faults a a };

    ghost reads_on: { (a b c : Self) → Untouched count name reads tells told faults a b
        → Untouched count name reads tells told faults b c → Untouched count name reads tells told faults a c };

    /// It has at most 2^64 bytes.
    ghost bounded: { (disk : Self) → count disk * B ≤ 2 ^ 64 };

    /// It has as many sectors as it says.
    ghost sized: { (disk : Self) → tells → length (told disk).seen ≡ count disk };

    /// What a read gives is one of the disks that a crash may leave.
    ghost may_be_seen: { (disk : Self) → tells → MayLeave (told disk) (told disk).seen };
}
