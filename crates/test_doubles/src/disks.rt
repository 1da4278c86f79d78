//! Copies of disks in memory.

ghost use Rattle.pt_sector.specs.Sectors.{IsSectorSize};

use pt_disks::in_memory::MemDisk;
use pt_sector::{Disk, Sector};
use std::alloc::Global;
use std::test::Fail;
use test_samples::{put, sector};

/// The most sectors of a disk that is compared.
pub const MOST: u64 = 16384;

/// A copy of a disk's first sectors, at most `MOST`.
pub fn copied<const B: usize, D: Disk<B>>(alloc: Global, disk: &mut D) -> Result<MemDisk<B>, Fail>
    requires { IsSectorSize B }
{
    let sectors = disk.sectors().min(MOST);
    let mut copy: MemDisk<B> = MemDisk::new(alloc, sectors)?;
    for lba in 0..sectors {
        let bytes: Sector<B> = sector(disk, lba)?;
        put(&mut copy, lba, &bytes)?;
    }
    Ok(copy)
}
