ghost use Rattle.std.specs.Prelude.{◌≡◌, ◌≤◌, ◌<◌, ◌*◌, ◌^◌, ℕ, List, [], length, replicate, IfOk, IfErr, OnOk, OnErr, IsOk};
ghost use Rattle.std.proofs.Common.{refl};
ghost use Rattle.pt_sector.specs.declared.disk.Fault.TheVariants.{Read, Write, Flush};
ghost use Rattle.pt_sector.specs.Sectors.{IsSectorSize, sector};
ghost use Rattle.pt_sector.specs.Device.{Wrote, Flushed};
ghost use Rattle.pt_sector.specs.inner.ForFields.{untouched_same, untouched_on, stopped_same};
ghost use Rattle.pt_disks.specs.Memory.{mem_told, zero_sectors};

use pt_sector::{Disk, Fault, Lba, Moments};
use std::alloc::{AllocError, Global};

/// A disk in memory. None of its calls fails, a write is durable at once, and a flush does nothing.
#[derive(Drop)]
pub struct MemDisk<const B: usize> {
    sectors: Vec<[u8; B]>,
    past: Moments<Vec<[u8; B]>>,
    ghost fits: { length sectors.items * B ≤ 2 ^ 64 },
}

impl<const B: usize> MemDisk<B> {
    /// A disk with this many sectors, all zero: at most 2^55 of 512 bytes, or 2^52 of 4096.
    pub fn new(alloc: Global, sectors: u64) -> Result<MemDisk<B>, AllocError>
        requires size { IsSectorSize B }
        requires count { sectors * B ≤ 2 ^ 64 }
        ensures seen { IfOk result (λ d. (⟦<MemDisk<B> as Disk<B>>⟧.told d).seen ≡ zero_sectors B sectors) }
        ensures past { IfOk result (λ d. (⟦<MemDisk<B> as Disk<B>>⟧.told d).past ≡ []) }
        ensures count { IfOk result (λ d. ⟦<MemDisk<B> as Disk<B>>⟧.count d ≡ sectors) }
    {
        Ok(MemDisk::from_sectors(zeroed(alloc, sectors)?))
    }

    /// The law that none of its calls fails: the list of its faults, to which a failed call would add, is always empty.
    pub fn never_fails(&self)
        ensures { ⟦<MemDisk<B> as Disk<B>>⟧.faults self.now ≡ [] }
    {}

    /// A disk with these sectors.
    pub(crate) fn from_sectors(sectors: Vec<[u8; B]>) -> MemDisk<B>
        requires { length sectors.items * B ≤ 2 ^ 64 }
        ensures { ⟦<MemDisk<B> as Disk<B>>⟧.told result ≡ mem_told sectors.entry.items [] }
    {
        MemDisk {
            sectors,
            past: Moments::new(),
        }
    }
}

impl<const B: usize> Disk<B> for MemDisk<B> {
    ghost tells = { Unit {0} };

    ghost told = { λ d. mem_told d.sectors.items d.past.items };

    ghost count = { λ d. length d.sectors.items };

    ghost faults = { λ d. [] };

    ghost name = { λ d. 0 };

    ghost reads = { λ a b. Unit {0} };

    ghost reads_same = { untouched_same _ _ _ _ _ _ (λ a. tt) };

    ghost reads_on = { untouched_on _ _ _ _ _ _ (λ a b c ab bc. tt) };

    ghost bounded = { λ d. d.fits };

    ghost sized = { λ d tells. refl };

    ghost may_be_seen = { λ d tells. stopped_same d.sectors.items [] };

    fn sectors(&self) -> u64 {
        self.sectors.len() as u64
    }

    fn read(&mut self, lba: Lba, into: &mut [u8; B]) -> Result<(), Fault> {
        *into = self.sectors[lba.0 as usize];
        Ok(())
    }

    fn write(&mut self, lba: Lba, bytes: &[u8; B]) -> Result<(), Fault> {
        self.past = self.past.and(&self.sectors);
        self.sectors[lba.0 as usize] = *bytes;
        Ok(())
    }

    fn flush(&mut self) -> Result<(), Fault> {
        self.past = self.past.and(&self.sectors);
        Ok(())
    }
}

/// This many sectors of zero bytes.
pub(crate) fn zeroed<const B: usize>(
    alloc: Global,
    sectors: u64,
) -> Result<Vec<[u8; B]>, AllocError>
    requires { IsSectorSize B }
    ensures { IfOk result (λ v. v.items ≡ zero_sectors B sectors) }
{
    let mut all = Vec::with_capacity(alloc, sectors as usize)?;
    for made in 0..sectors {
        all.push([0; B])?;
    }
    Ok(all)
}
