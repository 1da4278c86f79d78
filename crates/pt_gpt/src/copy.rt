//! Reading a copy of the table from a disk.

ghost use Rattle.std.specs.Prelude.{◌≡◌, ◌⊎◌, ◌+◌, ◌*◌, ◌<◌, ◌≤◌, ◌↔◌, IfOk, IfErr, OnOk, IsTrue, length};
ghost use Rattle.pt_sector.specs.Sectors.{IsSectorSize, sector};
ghost use Rattle.pt_sector.specs.Device.{Blames};
ghost use Rattle.pt_sector.specs.Overlays.{OnlyReads};
ghost use Rattle.pt_gpt.specs.Copies.{IsOutsideCopy, NeedsNoMemory, fault_in, FailedInCopy, HeaderBytes, IsHeaderFault, HasRoom};
ghost use Rattle.pt_gpt.specs.Copies.{header_place, IsPlaced, IsHead, CopyWith, Copy, SideReads, TellsHeadFault, TellsFault};
ghost use Rattle.pt_gpt.specs.Copies.{AreEntries, TellsSame};
ghost use Rattle.pt_gpt.specs.inner.Copies.{HasNumbers};

use crate::entries::{read_entries, read_same_entries};
use crate::error::CopyError;
use crate::header::{Header, decode_header};
use crate::last::LastArray;
use crate::place::{check_place, header_at};
use crate::table::{Side, Table};
use pt_sector::{Disk, Lba, read_sector};
use std::alloc::Global;

// The header that a sector is.
#[tactic(auto, using(crate::proofs::Heads::header_needs_none))]
fn read_header<const B: usize, D: Disk<B>>(disk: &mut D, at: u64) -> Result<Header, CopyError>
    requires size { IsSectorSize B }
    requires within { at < D.count disk.old }
    ensures same { OnlyReads D.Disk disk.old disk.new }
    ensures blames { Blames fault_in result (D.faults disk.old) (D.faults disk.new) }
    ensures place { IfErr result (FailedInCopy (λ s. s ≡ at)) }
    ensures memory { IfErr result NeedsNoMemory }
    ensures ok { D.tells → IfOk result (λ h. HeaderBytes B h (sector (D.told disk.old).seen at)) }
    ensures err { D.tells → IfErr result (λ e. IsOutsideCopy e ⊎ IsHeaderFault B e (sector (D.told disk.old).seen at)) }
{
    let mut bytes = [0; B];
    read_sector(disk, Lba(at), &mut bytes)?;
    decode_header(&bytes)
}

/// The header of a side's copy, where the fields of the one that stands there are those of a table.
///
/// Of errors 1 to 8 the first that holds, or `Device` where the read failed. It reads one sector and takes no memory;
/// the array's CRC is for `read_table`.
#[tactic(auto, using(crate::proofs::Heads::place_needs_none))]
pub fn read_head<const B: usize, D: Disk<B>>(disk: &mut D, side: Side) -> Result<Header, CopyError>
    requires size { IsSectorSize B }
    requires room { HasRoom B (D.count disk.old) }
    ensures same { OnlyReads D.Disk disk.old disk.new }
    ensures blames { Blames fault_in result (D.faults disk.old) (D.faults disk.new) }
    ensures place { IfErr result (FailedInCopy (λ s. s ≡ header_place side (D.count disk.old))) }
    ensures memory { IfErr result NeedsNoMemory }
    ensures placed { IfOk result (λ h. IsPlaced B side (D.count disk.old) h) }
    ensures ok { D.tells → IfOk result (λ h. IsHead B (D.told disk.old).seen side h) }
    ensures err { D.tells → IfErr result (λ e. TellsHeadFault B (D.told disk.old).seen side e) }
{
    let sectors = disk.sectors();
    let header = read_header(disk, header_at(side, sectors))?;
    check_place::<B>(&header, side, sectors)?;
    Ok(header)
}

/// The table of the copy whose header stands on this side.
///
/// `ArrayCrc` where the array has another CRC, `Device` where a read failed. The memory for the array's bytes is taken at
/// once, before the first read, and that for the entries behind the last one; `Memory` where there is none. The counted sectors
/// of the array are read in order, through one sector's buffer. Where they have the bytes of the last array they aren't summed again.
pub fn read_table<const B: usize, D: Disk<B>>(
    alloc: Global,
    disk: &mut D,
    side: Side,
    header: &Header,
    last: &mut LastArray,
) -> Result<Table, CopyError>
    requires size { IsSectorSize B }
    requires room { HasRoom B (D.count disk.old) }
    requires placed { IsPlaced B side (D.count disk.old) header.now }
    requires head { D.tells → IsHead B (D.told disk.old).seen side header.now }
    ensures same { OnlyReads D.Disk disk.old disk.new }
    ensures blames { Blames fault_in result (D.faults disk.old) (D.faults disk.new) }
    ensures ok { D.tells → IfOk result (λ t. Copy B (D.told disk.old).seen side t) }
    ensures with { D.tells → IfOk result (λ t. CopyWith B (D.told disk.old).seen side header.now t) }
    ensures err { D.tells → IfErr result (λ e. TellsFault B (D.told disk.old).seen side e) }
    ensures place { D.tells → IfErr result (FailedInCopy (SideReads B (D.told disk.old).seen side)) }
    ensures last { IfOk result (λ t. AreEntries t.entries last.new) }
{
    let (crc, entries) = read_entries(alloc, disk, header.array, header.count, last)?;
    if crc != header.array_crc {
        return Err(CopyError::ArrayCrc);
    }
    Ok(Table {
        disk: header.disk,
        first: header.first,
        last: header.last,
        entries,
    })
}

// Whether a table has the header's DiskGUID and its usable sectors.
fn has_numbers(header: &Header, table: &Table) -> bool
    ensures { IsTrue result ↔ HasNumbers header.now table.now }
{
    header.disk == table.disk && header.first == table.first && header.last == table.last
}

/// Whether the copy whose header stands on this side is of this table, whose entries are those of the last array.
///
/// It reads and fails as `read_table`. Where the array has the bytes of the last one, it is neither summed nor decoded, and no entry
/// is compared. Other bytes are decoded: they may be the same entries, since the bytes of an unused one are free but for its type.
pub fn read_same<const B: usize, D: Disk<B>>(
    alloc: Global,
    disk: &mut D,
    side: Side,
    header: &Header,
    table: &Table,
    last: &mut LastArray,
) -> Result<bool, CopyError>
    requires size { IsSectorSize B }
    requires room { HasRoom B (D.count disk.old) }
    requires placed { IsPlaced B side (D.count disk.old) header.now }
    requires head { D.tells → IsHead B (D.told disk.old).seen side header.now }
    requires last { AreEntries table.now.entries last.old }
    ensures same { OnlyReads D.Disk disk.old disk.new }
    ensures blames { Blames fault_in result (D.faults disk.old) (D.faults disk.new) }
    ensures ok { D.tells → IfOk result (TellsSame B (D.told disk.old).seen side header.now table.now) }
    ensures err { D.tells → IfErr result (λ e. TellsFault B (D.told disk.old).seen side e) }
    ensures place { D.tells → IfErr result (FailedInCopy (SideReads B (D.told disk.old).seen side)) }
{
    let (crc, same) = read_same_entries(
        alloc,
        disk,
        header.array,
        header.count,
        &table.entries,
        last,
    )?;
    if crc != header.array_crc {
        return Err(CopyError::ArrayCrc);
    }
    Ok(same && has_numbers(header, table))
}

/// The table of a side's copy, on a disk of at least 2A + 4 sectors, where an array of 128 entries takes A.
///
/// Of errors 1 to 9 the first that holds; `Device` where a read failed, and `Memory` where there was none for the
/// entries. AlternateLBA isn't looked at.
pub fn read_copy<const B: usize, D: Disk<B>>(
    alloc: Global,
    disk: &mut D,
    side: Side,
) -> Result<Table, CopyError>
    requires size { IsSectorSize B }
    requires room { HasRoom B (D.count disk.old) }
    ensures same { OnlyReads D.Disk disk.old disk.new }
    ensures blames { Blames fault_in result (D.faults disk.old) (D.faults disk.new) }
    ensures ok { D.tells → IfOk result (λ t. Copy B (D.told disk.old).seen side t) }
    ensures err { D.tells → IfErr result (λ e. TellsFault B (D.told disk.old).seen side e) }
    ensures place { D.tells → IfErr result (FailedInCopy (SideReads B (D.told disk.old).seen side)) }
{
    let header = read_head(disk, side)?;
    let mut last = LastArray::new(alloc);
    read_table(alloc, disk, side, &header, &mut last)
}
