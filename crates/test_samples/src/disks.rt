//! Small disks, and what they hold.

ghost use Rattle.std.specs.Prelude.{◌≡◌, ◌≤◌, ◌<◌};
ghost use Rattle.pt_sector.specs.Sectors.{IsSectorSize};

use pt_apply::Write;
use pt_disks::in_memory::{CrashDisk, MemDisk};
use pt_edit::{Edit, parse_edit};
use pt_gpt::{
    Entry, Header, Side, array_at, array_crc, array_sectors, encode_array_sector, encode_header,
    header_at,
};
use pt_guid::{Guid, fresh};
use pt_mbr::{Mbr, Record, encode_mbr, protective};
use pt_plan::commit;
use pt_plan::runs::Batch;
use pt_sector::{Disk, Fault, Lba, Sector};
use std::alloc::Global;
use std::test::Fail;

/// 0fc63daf-8483-4772-8e79-3d69d8477de4, the type of a Linux filesystem, as it is stored.
pub const LINUX: Guid = Guid([
    0xaf, 0x3d, 0xc6, 0x0f, 0x83, 0x84, 0x72, 0x47, 0x8e, 0x79, 0x3d, 0x69, 0xd8, 0x47, 0x7d, 0xe4,
]);

/// 00010203-0405-4607-8809-0a0b0c0d0e0f, as it is stored.
pub const DISK: Guid = Guid([3, 2, 1, 0, 5, 4, 7, 0x46, 0x88, 9, 10, 11, 12, 13, 14, 15]);

/// Two fresh GUIDs: of the bytes from 0 to 15, and of zeros.
pub fn guids() -> [Guid; 2] {
    let counted = [0, 1, 2, 3, 4, 5, 6, 7, 8, 9, 10, 11, 12, 13, 14, 15];
    [fresh(counted), fresh([0; 16])]
}

/// A batch for each word.
pub fn batches(alloc: Global, texts: &[&str]) -> Result<Vec<Batch>, Fail> {
    let mut made = Vec::new(alloc);
    for text in texts {
        made.push(Batch {
            edits: words(alloc, &[text])?,
            guids: Vec::new(alloc),
        })?;
    }
    Ok(made)
}

/// The words of a command line.
pub fn words(alloc: Global, texts: &[&str]) -> Result<Vec<Edit>, Fail> {
    let mut edits = Vec::new(alloc);
    for text in texts {
        edits.push(parse_edit(alloc, text)?)?;
    }
    Ok(edits)
}

/// A sector; zeros where there is none.
pub fn sector<const B: usize, D: Disk<B>>(disk: &mut D, lba: u64) -> Result<Sector<B>, Fault>
    requires { IsSectorSize B }
    ensures count { D.count disk.new ≡ D.count disk.old }
    ensures name { D.name disk.new ≡ D.name disk.old }
{
    let mut bytes = [0; B];
    if lba < disk.sectors() {
        disk.read(Lba(lba), &mut bytes)?;
    }
    Ok(bytes)
}

/// Writes a sector, where there is one.
pub fn put<const B: usize, D: Disk<B>>(
    disk: &mut D,
    lba: u64,
    bytes: &Sector<B>,
) -> Result<(), Fault>
    requires { IsSectorSize B }
    ensures count { D.count disk.new ≡ D.count disk.old }
    ensures name { D.name disk.new ≡ D.name disk.old }
{
    if lba < disk.sectors() {
        disk.write(Lba(lba), bytes)?;
    }
    Ok(())
}

/// Another byte in a sector.
pub fn change<const B: usize, D: Disk<B>>(
    disk: &mut D,
    lba: u64,
    at: usize,
    byte: u8,
) -> Result<(), Fault>
    requires size { IsSectorSize B }
    requires place { at < 512 }
{
    let mut bytes: Sector<B> = sector(disk, lba)?;
    bytes[at] = byte;
    put(disk, lba, &bytes)
}

/// A disk of so many sectors on which words were committed: over zeros, or over an MBR without partitions.
pub fn made<const B: usize>(
    alloc: Global,
    sectors: u64,
    with_mbr: bool,
    texts: &[&str],
) -> Result<MemDisk<B>, Fail>
    requires size { IsSectorSize B }
    requires few { sectors ≤ 16384 }
{
    let mut disk: MemDisk<B> = MemDisk::new(alloc, sectors)?;
    if with_mbr {
        put_mbr(&mut disk, [None; 4])?;
    }
    commit(alloc, &mut disk, &words(alloc, texts)?, &guids())?;
    Ok(disk)
}

/// 4096 sectors of 512 bytes, with partition 1 from sector 2048 to 4062 in a GPT.
pub fn gpt_disk(alloc: Global) -> Result<MemDisk<512>, Fail> {
    made(alloc, 4096, false, &["o", "n:1:0:0"])
}

/// A record of this type.
pub fn record(kind: u8, start: u32, size: u32) -> Option<Record> {
    Some(Record {
        boot: 0,
        start_chs: [0; 3],
        kind,
        end_chs: [0; 3],
        start,
        size,
    })
}

/// A record with the CHS values that an edit writes: those of sectors that no CHS value reaches.
pub fn new_record(kind: u8, start: u32, size: u32) -> Record {
    Record {
        boot: 0,
        start_chs: [0xFE, 0xFF, 0xFF],
        kind,
        end_chs: [0xFE, 0xFF, 0xFF],
        start,
        size,
    }
}

/// An MBR with these records in sector 0.
pub fn put_mbr<const B: usize, D: Disk<B>>(
    disk: &mut D,
    records: [Option<Record>; 4],
) -> Result<(), Fault>
    requires { IsSectorSize B }
{
    put(disk, 0, &encode_mbr(&Mbr { records }, &[0; B]))
}

/// An entry of this number on these sectors.
pub fn entry(number: u8, first: u64, last: u64) -> Option<Entry> {
    Some(Entry {
        kind: LINUX,
        unique: Guid([number; 16]),
        first,
        last,
        attributes: 0,
        name: [0; 36],
    })
}

/// A side's copy of a table with these entries, whose header names this sector as the other header's.
pub fn put_copy<const B: usize, D: Disk<B>>(
    disk: &mut D,
    side: Side,
    entries: &[Option<Entry>; 4],
    alternate: u64,
) -> Result<(), Fault>
    requires { IsSectorSize B }
{
    let sectors = disk.sectors();
    let edge = array_sectors::<B>() + 2;
    if sectors < 2 * edge {
        return Ok(());
    }
    let header = Header {
        my: header_at(side, sectors),
        alternate,
        first: edge,
        last: sectors - edge,
        disk: DISK,
        array: array_at::<B>(side, sectors),
        count: 4,
        entry_size: 128,
        array_crc: array_crc(entries),
    };
    put(disk, header.my, &encode_header(&header))?;
    put(disk, header.array, &encode_array_sector(entries, 0))
}

/// A GPT disk of 256 sectors with these entries.
pub fn table_disk<const B: usize>(
    alloc: Global,
    entries: &[Option<Entry>; 4],
) -> Result<MemDisk<B>, Fail>
    requires { IsSectorSize B }
{
    let mut disk: MemDisk<B> = MemDisk::new(alloc, 256)?;
    put_copy(&mut disk, Side::Primary, entries, 255)?;
    put_copy(&mut disk, Side::Backup, entries, 1)?;
    put(&mut disk, 0, &protective(256, &[0; B]))?;
    Ok(disk)
}

/// What a disk holds: its sectors but those of zeros, in order.
#[derive(Drop)]
pub struct Image<const B: usize> {
    pub sectors: u64,
    writes: Vec<Write<B>>,
}

/// What a disk holds.
pub fn image_of<const B: usize, D: Disk<B>>(alloc: Global, disk: &mut D) -> Result<Image<B>, Fail>
    requires { IsSectorSize B }
{
    let sectors = disk.sectors();
    let mut writes = Vec::new(alloc);
    for lba in 0..sectors {
        let bytes: Sector<B> = sector(disk, lba)?;
        if bytes != [0; B] {
            writes.push(Write {
                lba: Lba(lba),
                bytes,
            })?;
        }
    }
    Ok(Image { sectors, writes })
}

/// Whether a disk holds just this.
pub fn holds<const B: usize, D: Disk<B>>(disk: &mut D, image: &Image<B>) -> Result<bool, Fault>
    requires { IsSectorSize B }
{
    let mut next = 0;
    for lba in 0..disk.sectors() {
        let mut wanted = [0; B];
        if next < image.writes.len() && image.writes[next].lba.0 == lba {
            wanted = image.writes[next].bytes;
            next += 1;
        }
        let bytes: Sector<B> = sector(disk, lba)?;
        if bytes != wanted {
            return Ok(false);
        }
    }
    Ok(next == image.writes.len() && disk.sectors() == image.sectors)
}

/// A disk that holds this durably, with room for 80 pending writes.
pub fn crash_disk<const B: usize>(alloc: Global, image: &Image<B>) -> Result<CrashDisk<B>, Fail>
    requires { IsSectorSize B }
{
    let sectors = if image.sectors < 16384 {
        image.sectors
    } else {
        16384
    };
    let mut disk: CrashDisk<B> = CrashDisk::new(alloc, sectors, 80)?;
    for write in &image.writes {
        put(&mut disk, write.lba.0, &write.bytes)?;
    }
    disk.flush()?;
    Ok(disk)
}
