//! A partition of a disk, as a disk of its own.

ghost use Rattle.std.specs.Prelude.{◌≡◌, ◌≤◌, ◌<◌, ◌+◌, ◌^◌, IfSome};
ghost use Rattle.std.proofs.Common.{refl};
ghost use Rattle.jawefon.specs.ForFields.{untouched_same, untouched_on};
ghost use Rattle.example_disk.specs.Window.{told_in};
ghost use Rattle.example_disk.specs.inner.ForFields.{fewer_bytes, sized_in, may_leave_in};

use jawefon::{Disk, Fault, Lba, Moments};

/// Consecutive sectors of a disk, as a disk: its sector 0 is the first of them.
///
/// It tells what the disk tells of them. A write is one of the disk, and a flush is the disk's.
#[derive(Drop)]
pub struct PartDisk<const B: usize, D: Disk<B> + Drop> {
    disk: D,
    first: u64,
    sectors: u64,
    failed: Moments<Fault>,
    ghost inside: { first + sectors ≤ D.count disk },
    ghost small: { first + sectors < 2 ^ 64 },
}

impl<const B: usize, D: Disk<B> + Drop> PartDisk<B, D> {
    /// So many sectors of the disk from this one on; none where the disk ends before.
    pub fn new(disk: D, first: Lba, sectors: u64) -> Option<PartDisk<B, D>>
        ensures part { IfSome result (λ part. (part.disk ≡ disk) × (part.first ≡ first.0) × (part.sectors ≡ sectors)) }
    {
        let count = disk.sectors();
        if first.0 > count || sectors > count - first.0 {
            return None;
        }
        Some(PartDisk {
            disk,
            first: first.0,
            sectors,
            failed: Moments::new(),
        })
    }

    /// The whole disk again.
    pub fn into_disk(self) -> D
        ensures { result ≡ self.disk }
    {
        self.disk
    }
}

impl<const B: usize, D: Disk<B> + Drop> Disk<B> for PartDisk<B, D> {
    ghost tells = { D.tells };

    ghost told = { λ p. told_in p.first p.sectors (D.told p.disk) };

    ghost count = { λ p. p.sectors };

    ghost faults = { λ p. p.failed.items };

    ghost name = { λ p. D.name p.disk };

    ghost reads = { λ p q. Unit {0} };

    ghost reads_same = { untouched_same _ _ _ _ _ _ (λ p. tt) };

    ghost reads_on = { untouched_on _ _ _ _ _ _ (λ a b c ab bc. tt) };

    ghost bounded = { λ p. fewer_bytes p.first p.sectors (D.count p.disk) B p.inside (D.bounded p.disk) };

    ghost sized = { λ p tells. sized_in p.first p.sectors (D.told p.disk).seen (D.count p.disk) p.inside (D.sized p.disk tells) };

    ghost may_be_seen = { λ p tells. may_leave_in p.first p.sectors (D.told p.disk) (D.may_be_seen p.disk tells) };

    fn sectors(&self) -> u64 {
        self.sectors
    }

    fn read(&mut self, lba: Lba, into: &mut [u8; B]) -> Result<(), Fault> {
        match self.disk.read(Lba(self.first + lba.0), into) {
            Ok(()) => Ok(()),
            Err(_) => {
                self.failed = self.failed.and(&Fault::Read(lba));
                Err(Fault::Read(lba))
            }
        }
    }

    fn write(&mut self, lba: Lba, bytes: &[u8; B]) -> Result<(), Fault> {
        match self.disk.write(Lba(self.first + lba.0), bytes) {
            Ok(()) => Ok(()),
            Err(_) => {
                self.failed = self.failed.and(&Fault::Write(lba));
                Err(Fault::Write(lba))
            }
        }
    }

    fn flush(&mut self) -> Result<(), Fault> {
        match self.disk.flush() {
            Ok(()) => Ok(()),
            Err(_) => {
                self.failed = self.failed.and(&Fault::Flush);
                Err(Fault::Flush)
            }
        }
    }
}
