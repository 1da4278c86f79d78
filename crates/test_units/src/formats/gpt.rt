ghost use Rattle.std.specs.Prelude.{◌≡◌, length, IfOk};
ghost use Rattle.pt_sector.specs.Sectors.{IsSectorSize};
ghost use Rattle.pt_gpt.specs.Copies.{HasRoom};
ghost use Rattle.pt_gpt.specs.Entries.{IsTyped};

use pt_disks::in_memory::CrashDisk;
use pt_gpt::laws::{entry_reads_back, header_reads_back};
use pt_gpt::{
    CopyError, Entries, Entry, Header, LastArray, Side, Table, array_at, array_crc, array_sectors,
    decode_entry, encode_entry, encode_header, has_room, header_at, read_copy, read_head,
    read_same, read_table,
};
use pt_guid::Guid;
use pt_sector::{Disk, Lba, Sector};
use pt_sum::crc32;
use std::alloc::{AllocError, Global};
use std::test::Fail;

/// 00010203-0405-4607-8809-0a0b0c0d0e0f, as it is stored.
const DISK: Guid = Guid([3, 2, 1, 0, 5, 4, 7, 0x46, 0x88, 9, 10, 11, 12, 13, 14, 15]);

/// 0fc63daf-8483-4772-8e79-3d69d8477de4, the type of a Linux filesystem, as it is stored.
const LINUX: Guid = Guid([
    0xaf, 0x3d, 0xc6, 0x0f, 0x83, 0x84, 0x72, 0x47, 0x8e, 0x79, 0x3d, 0x69, 0xd8, 0x47, 0x7d, 0xe4,
]);

/// A partition of this number and place.
fn partition(number: u8, first: u64, last: u64) -> Entry {
    Entry {
        kind: LINUX,
        unique: Guid([number; 16]),
        first,
        last,
        attributes: 4,
        name: [0x41; 36],
    }
}

/// The header of a side's copy with these entries, of which there are `count`.
fn header_of<const B: usize>(
    side: Side,
    sectors: u64,
    entries: &[Option<Entry>],
    count: u32,
) -> Header
    requires size { IsSectorSize B }
    requires room { HasRoom B sectors }
{
    let other = if side == Side::Primary {
        Side::Backup
    } else {
        Side::Primary
    };
    let edge = array_sectors::<B>() + 2;
    Header {
        my: header_at(side, sectors),
        alternate: header_at(other, sectors),
        first: edge,
        last: sectors - edge,
        disk: DISK,
        array: array_at::<B>(side, sectors),
        count,
        entry_size: 128,
        array_crc: array_crc(entries),
    }
}

/// Writes a sector, and answers whether it could.
fn put<const B: usize, D: Disk<B>>(disk: &mut D, at: u64, bytes: &Sector<B>) -> bool {
    at < disk.sectors() && disk.write(Lba(at), bytes).is_ok()
}

/// A side's copy; `Memory` too where there is no room for two.
fn copy_of<const B: usize, D: Disk<B>>(
    alloc: Global,
    disk: &mut D,
    side: Side,
) -> Result<Table, CopyError>
    requires { IsSectorSize B }
{
    if disk.sectors() < 2 * array_sectors::<B>() + 4 {
        return Err(CopyError::Memory);
    }
    read_copy(alloc, disk, side)
}

/// The partition of a disk of 4,096 sectors of 512 bytes, from 2048 to 4062.
fn g_entry() -> Entry
    ensures { IsTyped result }
{
    Entry {
        kind: LINUX,
        unique: Guid([0, 0, 0, 0, 0, 0, 0, 0x40, 0x80, 0, 0, 0, 0, 0, 0, 0]),
        first: 2048,
        last: 4062,
        attributes: 0,
        name: [0; 36],
    }
}

fn g_entries() -> [Option<Entry>; 128]
    ensures { length result ≡ 128 }
{
    let mut entries = [None; 128];
    entries[0] = Some(g_entry());
    entries
}

fn g_header() -> Header {
    header_of::<512>(Side::Primary, 4096, &g_entries(), 128)
}

#[test]
fn a_header_that_other_programs_write(rt: HostRuntime) {
    let header = g_header();
    assert!(rt; header_reads_back::<4096>(&header) == Ok(header));
}

/// The same partition with half of a pair in each unit of its name.
fn half_named() -> Entry
    ensures { IsTyped result }
{
    Entry {
        name: [0xd83d; 36],
        ..g_entry()
    }
}

#[test]
fn entries_are_read_back(rt: HostRuntime) {
    let entry = half_named();
    assert!(rt; entry_reads_back(&entry) == Some(entry));
    assert!(rt; encode_entry(None) == [0; 128]);
    assert!(rt; decode_entry(&[0; 128]) == None);
}

/// The error in reading a copy of an empty table in the last sectors of 128, with the k-th read failing.
fn failure_of<const B: usize>(alloc: Global, disk: &mut CrashDisk<B>, k: u64) -> Option<CopyError>
    requires { IsSectorSize B }
{
    let header = header_of::<B>(Side::Backup, 128, &[None; 128], 128);
    put(disk, header.my, &encode_header(&header));
    disk.fail_at(k, false);
    copy_of(alloc, disk, Side::Backup).err()
}

/// The same of a disk of so many sectors.
fn failing_read<const B: usize>(alloc: Global, k: u64) -> Result<Option<CopyError>, AllocError>
    requires { IsSectorSize B }
{
    let mut disk: CrashDisk<B> = CrashDisk::new(alloc, 128, 1)?;
    Ok(failure_of(alloc, &mut disk, k))
}

#[test]
fn a_failed_read_is_the_device_s(rt: HostRuntime) {
    for (k, want) in [
        (0, None),
        (1, Some(CopyError::Device(Lba(127)))),
        (2, Some(CopyError::Device(Lba(95)))),
        (33, Some(CopyError::Device(Lba(126)))),
    ] {
        assert!(rt; failing_read::<512>(rt.alloc(), k) == Ok(want));
    }
    let device = Some(CopyError::Device(Lba(123)));
    assert!(rt; failing_read::<4096>(rt.alloc(), 2) == Ok(device));
    assert!(rt; failing_read::<4096>(rt.alloc(), 6) == Ok(None));
}

/// A table with one partition and room for another.
fn small_table(alloc: Global) -> Result<Table, Fail>
    ensures { IfOk result (λ t. length t.entries ≡ 2) }
{
    let items = Vec::from_slice(alloc, &[Some(partition(1, 40, 50)), None])?;
    Ok(Table {
        disk: DISK,
        first: 34,
        last: 60,
        entries: Entries::new(items),
    })
}

/// Of a copy with another second entry: whether it is the same table, that entry, and how many there are to go over and
/// to take.
fn changed_copy(alloc: Global) -> Result<(bool, Option<Entry>, usize, usize), Fail> {
    let table = small_table(alloc)?;
    let mut other = table.copy(alloc)?;
    other.entries.set(1, Some(partition(2, 51, 60)));
    let same = other.same(&table);
    let second = other.entries.get(1);
    let count = other.entries.iter().count();
    Ok((same, second, count, other.entries.into_vec().len()))
}

#[test]
fn tables_are_changed(rt: HostRuntime) -> Result<(), Fail> {
    let changed = changed_copy(rt.alloc())?;
    assert!(rt; changed == (false, Some(partition(2, 51, 60)), 2, 2));
    Ok(())
}

/// An array of four entries in one sector, with one in use that has this number. The unused ones are of these bytes but for the type.
fn array_with(number: u8, unused: u8) -> Sector<512> {
    let mut array = [unused; 512];
    array[..128].copy_from_slice(&encode_entry(Some(&partition(number, 40, 50))));
    for k in 1..4 {
        array[128 * k..128 * k + 16].copy_from_slice(&[0; 16]);
    }
    array
}

/// Writes a side's copy with this array on a disk of 128 sectors.
fn put_copy<D: Disk<512>>(disk: &mut D, side: Side, array: &Sector<512>) {
    let header = Header {
        array_crc: crc32(array),
        ..header_of::<512>(side, 128, &[], 4)
    };
    put(disk, header.my, &encode_header(&header));
    put(disk, header.array, array);
}

/// Whether the backup has the primary's table; `Memory` too where there is no room for two.
fn have_one_table<D: Disk<512>>(alloc: Global, disk: &mut D) -> Result<bool, CopyError> {
    if !has_room::<512>(disk.sectors()) {
        return Err(CopyError::Memory);
    }
    let primary = read_head(disk, Side::Primary)?;
    let mut last = LastArray::new(alloc);
    let table = read_table(alloc, disk, Side::Primary, &primary, &mut last)?;
    let backup = read_head(disk, Side::Backup)?;
    read_same(alloc, disk, Side::Backup, &backup, &table, &mut last)
}

/// The same of copies with these arrays.
fn arrays_agree(
    alloc: Global,
    primary: &Sector<512>,
    backup: &Sector<512>,
) -> Result<Result<bool, CopyError>, AllocError> {
    let mut disk: CrashDisk<512> = CrashDisk::new(alloc, 128, 4)?;
    put_copy(&mut disk, Side::Primary, primary);
    put_copy(&mut disk, Side::Backup, backup);
    Ok(have_one_table(alloc, &mut disk))
}

#[test]
fn copies_of_one_table_are_told(rt: HostRuntime) {
    let array = array_with(1, 0);
    for (other, want) in [
        (array, true),
        (array_with(1, 7), true),
        (array_with(2, 0), false),
    ] {
        assert!(rt; arrays_agree(rt.alloc(), &array, &other) == Ok(Ok(want)));
    }
}
