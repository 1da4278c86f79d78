//! Beginning to follow a copy.

ghost use Rattle.std.specs.Prelude.{◌≡◌, ◌<◌, ◌≤◌, ◌+◌, ◌^◌, ℕ, IfOk, IfErr};
ghost use Rattle.pt_sector.specs.Sectors.{IsSectorSize};
ghost use Rattle.pt_sector.specs.Device.{Blames};
ghost use Rattle.pt_sector.specs.Overlays.{OnlyReads};
ghost use Rattle.pt_gpt.specs.Copies.{IsOutsideCopy, fault_in, FailedInCopy, HasRoom, SideReads, counted};
ghost use Rattle.pt_follow.specs.Follow.{Follows, InCopy};
ghost use Rattle.pt_follow.specs.inner.Follow.{IsHeadless, ReadArray};

use crate::array::has_entries;
use crate::copy::FollowedCopy;
use pt_gpt::{CopyError, ENTRY_SIZE, Entry, Side, Table, counted_sectors, read_head};
use pt_sector::{Disk, Lba, read_sector};
use pt_sum::crc32;
use std::alloc::Global;

// The bytes of an array's entries, and of each of its sectors the sum of those that it holds and whether it has these entries. The array
// begins at sector `at`. The memory for all is taken before the first read.
fn read_array<const B: usize, D: Disk<B>>(
    alloc: Global,
    disk: &mut D,
    at: u64,
    count: u32,
    entries: &[Option<Entry>],
) -> Result<(Vec<u8>, Vec<u32>, Vec<bool>), CopyError>
    requires size { IsSectorSize B }
    requires most { count ≤ 128 }
    requires fits { at + counted B count < 2 ^ 64 }
    requires within { at + counted B count ≤ D.count disk.old }
    ensures same { OnlyReads D.Disk disk.old disk.new }
    ensures blames { Blames fault_in result (D.faults disk.old) (D.faults disk.new) }
    ensures outside { IfErr result IsOutsideCopy }
    ensures place { IfErr result (FailedInCopy (λ s. (at ≤ s) × (s < at + counted B count))) }
    ensures ok { D.tells → IfOk result (λ r. ReadArray B (D.told disk.old).seen at count entries.now r.0.items r.1.items r.2.items) }
{
    let mut left = count as usize * ENTRY_SIZE;
    let sectors = counted_sectors::<B>(count);
    let mut bytes = Vec::with_capacity(alloc, left)?;
    let mut sums = Vec::with_capacity(alloc, sectors as usize)?;
    let mut same = Vec::with_capacity(alloc, sectors as usize)?;
    let mut sector = [0; B];
    for k in 0..sectors {
        read_sector(disk, Lba(at + k), &mut sector)?;
        let whole = &sector[..];
        let taken = left.min(B);
        bytes.extend_from_slice(&whole[..taken])?;
        left -= taken;
        sums.push_reserved(crc32(&whole[..taken]));
        same.push_reserved(has_entries::<B>(entries, k, &sector));
    }
    Ok((bytes, sums, same))
}

// The failure, if the error is one. Else what is known where no header of the side stands: that, and no entry.
fn without_head(
    alloc: Global,
    side: Side,
    sectors: u64,
    error: CopyError,
) -> Result<FollowedCopy, CopyError>
    ensures { IsHeadless side sectors error result }
{
    if error.failure().is_some() {
        return Err(error);
    }
    Ok(FollowedCopy {
        side,
        sectors,
        known: 0,
        head: None,
        bytes: Vec::new(alloc),
        sum: 0,
        sums: Vec::new(alloc),
        same: Vec::new(alloc),
    })
}

// How many entries are read where a header tells of so many. If the table has another number, all in their sectors are: then a header
// that tells of a few more isn't read anew.
fn known_with<const B: usize>(count: u32, of_table: usize) -> u32
    requires size { IsSectorSize B }
    requires most { count ≤ 128 }
    ensures sectors { counted B result ≡ counted B count }
    ensures most { result ≤ 128 }
{
    if count as usize == of_table {
        return count;
    }
    (counted_sectors::<B>(count) * (B / ENTRY_SIZE) as u64) as u32
}

/// Begins to follow a side's copy beside a table, as far as the header that stands there tells. Where none of the side stands, no entry is
/// known.
///
/// `Device` where a read failed, and `Memory` where there was none for the entries' bytes, or for a sum and a flag of each sector of the
/// array. It reads the header, and then, once that memory is taken, the sectors of the array in order.
pub fn follow<const B: usize, D: Disk<B>>(
    alloc: Global,
    disk: &mut D,
    side: Side,
    table: &Table,
) -> Result<FollowedCopy, CopyError>
    requires size { IsSectorSize B }
    requires room { HasRoom B (D.count disk.old) }
    ensures same { OnlyReads D.Disk disk.old disk.new }
    ensures blames { Blames fault_in result (D.faults disk.old) (D.faults disk.new) }
    ensures outside { IfErr result IsOutsideCopy }
    ensures place { D.tells → IfErr result (FailedInCopy (SideReads B (D.told disk.old).seen side)) }
    ensures ok { D.tells → IfOk result (Follows B (D.told disk.old).seen side table.now) }
    ensures reads { D.tells → IfOk result (λ c. (s : ℕ) → InCopy B (D.count disk.old) side c.known s
        → SideReads B (D.told disk.old).seen side s) }
{
    let sectors = disk.sectors();
    let header = match read_head(disk, side) {
        Ok(header) => header,
        Err(error) => return without_head(alloc, side, sectors, error),
    };
    let known = known_with::<B>(header.count, table.entries.len());
    let (bytes, sums, same) = read_array(
        alloc,
        disk,
        header.array,
        known,
        table.entries.as_slice(),
    )?;
    Ok(FollowedCopy {
        side,
        sectors,
        known,
        head: Some(header),
        sum: crc32(&bytes),
        bytes,
        sums,
        same,
    })
}
