ghost use Rattle.pt_sector.specs.Sectors.{IsSectorSize};

use pt_bsd::{empty_label, encode_label};
use pt_disks::in_memory::{CrashDisk, MemDisk};
use pt_gpt::{
    Entry, Header, Side, array_at, array_crc, array_sectors, encode_array_sector, encode_header,
    header_at,
};
use pt_guid::Guid;
use pt_mbr::{ChainError, Mbr, Record, encode_mbr};
use pt_recover::{Body, Layout, NoTable, recover, recover_traced};
use pt_sector::{Disk, Lba, Sector};
use std::alloc::{AllocError, Global};

/// Writes a sector, and answers whether it could.
fn put<const B: usize, D: Disk<B>>(disk: &mut D, at: u64, bytes: &Sector<B>) -> bool {
    at < disk.sectors() && disk.write(Lba(at), bytes).is_ok()
}

/// Writes a sector 0 or an extended boot record with these two records, each of a type, a start and a size.
fn put_records<const B: usize, D: Disk<B>>(
    disk: &mut D,
    at: u64,
    parts: [(u8, u32, u32); 2],
) -> bool
    requires { IsSectorSize B }
{
    let mut records = [None; 4];
    for k in 0..2usize {
        let (kind, start, size) = parts[k];
        records[k] = Some(Record {
            boot: 0,
            start_chs: [0; 3],
            kind,
            end_chs: [0; 3],
            start,
            size,
        });
    }
    put(disk, at, &encode_mbr(&Mbr { records }, &[0; B]))
}

const NONE: (u8, u32, u32) = (0, 0, 0);

/// The first number of its labels' slices, 0 where there is none, and how many there are.
fn labels_of(layout: &Layout) -> (u64, usize) {
    let labels = layout.labels.as_slice();
    match labels.first() {
        Some(label) => (label.number, labels.len()),
        None => (0, 0),
    }
}

/// Whether the disk could be written, which of sectors 0, 1, 2049 and 2050 were read, and the labels.
type Slice = (bool, [bool; 4], (u64, usize));

/// What is read of an MBR disk whose partition 1 is a slice from 2048 on, with a label in 2049 for 4096 sectors.
fn slice_of<const B: usize>(alloc: Global, disk: &mut MemDisk<B>, len: u32) -> Slice
    requires { IsSectorSize B }
{
    let label = encode_label(&empty_label(4096), &[0; B]);
    let made = put_records(disk, 0, [(0xA5, 2048, len), NONE]) && put(disk, 2049, &label);
    let (layout, trace) = recover_traced(alloc, disk);
    let read = [
        trace.contains(Lba(0)),
        trace.contains(Lba(1)),
        trace.contains(Lba(2049)),
        trace.contains(Lba(2050)),
    ];
    let labels = match layout {
        Ok(layout) => labels_of(&layout),
        Err(_) => (9, 9),
    };
    (made, read, labels)
}

/// The same of a disk of 8192 sectors. With sectors of 4096 bytes there are no labels.
fn slice_is_read<const B: usize>(alloc: Global, len: u32) -> Result<Slice, AllocError>
    requires { IsSectorSize B }
{
    let mut disk: MemDisk<B> = MemDisk::new(alloc, 8192)?;
    Ok(slice_of(alloc, &mut disk, len))
}

#[test]
fn labels_are_those_of_the_slice(rt: HostRuntime) {
    let read = [true, false, true, false];
    let unread = [true, false, false, false];
    assert!(rt; slice_is_read::<512>(rt.alloc(), 4096) == Ok((true, read, (1, 1))));
    assert!(rt; slice_is_read::<512>(rt.alloc(), 4097) == Ok((true, read, (0, 0))));
    assert!(rt; slice_is_read::<4096>(rt.alloc(), 4096) == Ok((true, unread, (0, 0))));
}

/// Whether a disk could be written, what is recovered from it, and which of five sectors were read.
type Chain = (bool, Result<usize, NoTable>, [bool; 5]);

/// How many extended boot records are recovered, 0 for a GPT; and which of five sectors were read.
fn chain_of<const B: usize>(
    alloc: Global,
    disk: &mut MemDisk<B>,
) -> (Result<usize, NoTable>, [bool; 5])
    requires { IsSectorSize B }
{
    let (answer, trace) = recover_traced(alloc, disk);
    let read = [
        trace.contains(Lba(0)),
        trace.contains(Lba(1)),
        trace.contains(Lba(4096)),
        trace.contains(Lba(6143)),
        trace.contains(Lba(6144)),
    ];
    let count = match answer {
        Ok(layout) => match &layout.body {
            Body::Mbr { chain, .. } => Ok(chain.as_slice().len()),
            _ => Ok(0),
        },
        Err(e) => Err(e),
    };
    (count, read)
}

/// The same of 16384 sectors with an extended partition from 4096 to 12287, an empty extended boot record in 4096, and one
/// in 6143 with a logical partition and this link; a second record of sector 0.
fn chain_is_read<const B: usize>(
    alloc: Global,
    second: (u8, u32, u32),
    link: (u8, u32, u32),
) -> Result<Chain, AllocError>
    requires size { IsSectorSize B }
{
    let mut disk: MemDisk<B> = MemDisk::new(alloc, 16384)?;
    let zeroth = put_records(&mut disk, 0, [(0x05, 4096, 8192), second]);
    let first = put_records(&mut disk, 4096, [NONE, (0x05, 2047, 1001)]);
    let next = put_records(&mut disk, 6143, [(0x83, 1, 1000), link]);
    let (answer, read) = chain_of(alloc, &mut disk);
    Ok((zeroth & first & next, answer, read))
}

/// The chain, its faults and two extended records, with the sectors read.
fn chains<const B: usize>(alloc: Global) -> bool
    requires { IsSectorSize B }
{
    let all = [true, false, true, true, false];
    let down = NoTable::Chain(ChainError::NotUpward(Lba(6143)));
    let out = NoTable::Chain(ChainError::OutsideExtended(Lba(12288)));
    let zeroth = [true, false, false, false, false];
    [
        chain_is_read::<B>(alloc, NONE, NONE),
        chain_is_read::<B>(alloc, NONE, (0x05, 0, 1)),
        chain_is_read::<B>(alloc, NONE, (0x0F, 8192, 1)),
        chain_is_read::<B>(alloc, (0x0F, 1, 1), (0x05, 0, 1)),
    ] == [
        Ok((true, Ok(2), all)),
        Ok((true, Err(down), all)),
        Ok((true, Err(out), all)),
        Ok((true, Err(NoTable::TwoExtended), zeroth)),
    ]
}

#[test]
fn chains_at_both_sizes(rt: HostRuntime) {
    assert!(rt; chains::<512>(rt.alloc()));
    assert!(rt; chains::<4096>(rt.alloc()));
}

/// Writes a side's copy of a table with one slice from 70 to 99.
fn put_copy<const B: usize, D: Disk<B>>(disk: &mut D, side: Side, other: Side) -> bool
    requires size { IsSectorSize B }
{
    let sectors = disk.sectors();
    let edge = array_sectors::<B>() + 2;
    if sectors < 2 * edge {
        return false;
    }
    let entries = [Some(Entry {
        kind: Guid([
            0xB4, 0x7C, 0x6E, 0x51, 0xCF, 0x6E, 0xD6, 0x11, 0x8F, 0xF8, 0x00, 0x02, 0x2D, 0x09,
            0x71, 0x2B,
        ]),
        unique: Guid([1; 16]),
        first: 70,
        last: 99,
        attributes: 0,
        name: [0; 36],
    })];
    let header = Header {
        my: header_at(side, sectors),
        alternate: header_at(other, sectors),
        first: edge,
        last: sectors - edge,
        disk: Guid([2; 16]),
        array: array_at::<B>(side, sectors),
        count: 1,
        entry_size: 128,
        array_crc: array_crc(&entries),
    };
    put(disk, header.my, &encode_header(&header))
        && put(disk, header.array, &encode_array_sector(&entries, 0))
}

/// Whether all could be written, and why nothing is recovered.
type Copies = (bool, Option<NoTable>);

/// A GPT with a slice, with a read of the primary header that fails.
fn copies_of<const B: usize>(alloc: Global, disk: &mut CrashDisk<B>) -> Copies
    requires { IsSectorSize B }
{
    let made = put_copy(disk, Side::Primary, Side::Backup)
        && put_copy(disk, Side::Backup, Side::Primary);
    disk.fail_at(2, false);
    let failed = match recover(alloc, disk) {
        Ok(_layout) => None,
        Err(e) => Some(e),
    };
    (made, failed)
}

fn copies<const B: usize>(alloc: Global) -> Result<Copies, AllocError>
    requires { IsSectorSize B }
{
    let mut disk: CrashDisk<B> = CrashDisk::new(alloc, 200, 16)?;
    Ok(copies_of(alloc, &mut disk))
}

const COPIES: Copies = (true, Some(NoTable::Device(Lba(1))));

#[test]
fn copies_at_both_sizes(rt: HostRuntime) {
    assert!(rt; copies::<512>(rt.alloc()) == Ok(COPIES));
    assert!(rt; copies::<4096>(rt.alloc()) == Ok(COPIES));
}
