ghost use Rattle.pt_sector.specs.Sectors.{IsSectorSize};

use pt_cases::targets::Target;
use pt_disks::in_memory::{CrashDisk, MemDisk};
use pt_mbr::{Ebr, Record};
use pt_planner::chains::{is_linked, mbr_targets};
use pt_recover::Ebrs;
use pt_sector::{Disk, Failure, Lba, Sector};
use std::alloc::Global;
use std::test::Fail;
use test_samples::new_record;

/// The four records and the chain of a layout.
#[derive(Drop)]
struct Parts {
    records: [Option<Record>; 4],
    chain: Ebrs,
}

/// An extended boot record, its logical partition of 1000 sectors right behind it.
fn ebr_at(at: u64, next: Option<Lba>) -> Ebr {
    Ebr {
        at: Lba(at),
        logical: Some(new_record(0x83, 1, 1000)),
        next,
    }
}

/// An extended boot record without a logical partition.
fn empty_at(at: u64, next: u64) -> Ebr {
    Ebr {
        at: Lba(at),
        logical: None,
        next: Some(Lba(next)),
    }
}

/// Record 2 is the extended partition from `first` to 12287.
fn with_chain(alloc: Global, first: u32, chain: &[Ebr]) -> Result<Parts, Fail> {
    let extended = new_record(0x05, first, 12288u32.saturating_sub(first));
    let mut items = Vec::new(alloc);
    items.extend_from_slice(chain)?;
    Ok(Parts {
        records: [None, Some(extended), None, None],
        chain: Ebrs::new(items),
    })
}

/// The layout with one logical partition, from 6144 on.
fn with_one(alloc: Global) -> Result<Parts, Fail> {
    with_chain(alloc, 4096, &[empty_at(4096, 6143), ebr_at(6143, None)])
}

/// The layout with one more, from 8192 on.
fn with_two(alloc: Global) -> Result<Parts, Fail> {
    let middle = ebr_at(6143, Some(Lba(8191)));
    with_chain(
        alloc,
        4096,
        &[empty_at(4096, 6143), middle, ebr_at(8191, None)],
    )
}

fn without(alloc: Global) -> Parts {
    Parts {
        records: [None; 4],
        chain: Ebrs::new(Vec::new(alloc)),
    }
}

/// The targets of a layout that is linked.
fn targets_of<const B: usize, D: Disk<B>>(
    alloc: Global,
    disk: &mut D,
    old: &Parts,
    new: &Parts,
) -> Result<Option<Vec<Target<B>>>, Failure>
    requires { IsSectorSize B }
{
    let sectors = disk.sectors();
    if sectors == 0 || !is_linked(sectors, &new.records, &new.chain) {
        return Ok(None);
    }
    mbr_targets(
        alloc,
        disk,
        &old.records,
        &old.chain,
        &new.records,
        &new.chain,
    )
}

fn put<const B: usize, D: Disk<B>>(disk: &mut D, at: Lba, bytes: &Sector<B>) -> bool {
    at.0 < disk.sectors() && disk.write(at, bytes).is_ok()
}

/// Whether all of the targets could be written.
fn put_all<const B: usize, D: Disk<B>>(disk: &mut D, targets: &[Target<B>]) -> bool {
    for target in targets {
        if !put(disk, target.at, &target.bytes) {
            return false;
        }
    }
    true
}

/// Writes the targets; none where there are none.
fn put_targets<const B: usize, D: Disk<B>>(
    alloc: Global,
    disk: &mut D,
    old: &Parts,
    new: &Parts,
) -> Option<Vec<Target<B>>>
    requires { IsSectorSize B }
{
    match targets_of(alloc, disk, old, new) {
        Ok(Some(targets)) => {
            if put_all(disk, &targets) {
                Some(targets)
            } else {
                None
            }
        }
        _ => None,
    }
}

/// Bytes `from` to `to` of target `k`, and the sector that it is of.
fn shown<const B: usize>(targets: &[Target<B>], k: usize, place: usize) -> (u64, [u8; 16])
    requires { IsSectorSize B }
{
    let mut bytes = [0; 16];
    if k >= targets.len() || place > 496 {
        return (0, bytes);
    }
    let target = targets[k];
    for i in 0..16usize {
        bytes[i] = target.bytes[place + i];
    }
    (target.at.0, bytes)
}

/// A disk of 16384 sectors whose sector 0 is an empty boot record.
fn blank<const B: usize>(alloc: Global) -> Result<MemDisk<B>, Fail>
    requires { IsSectorSize B }
{
    let mut disk: MemDisk<B> = MemDisk::new(alloc, 16384)?;
    let mut head = [0; B];
    head[7] = 0xEB;
    head[510] = 0x55;
    head[511] = 0xAA;
    put(&mut disk, Lba(0), &head);
    Ok(disk)
}

const LOGICAL: [u8; 16] = [
    0x00, 0xFE, 0xFF, 0xFF, 0x83, 0xFE, 0xFF, 0xFF, 0x01, 0x00, 0x00, 0x00, 0xE8, 0x03, 0x00, 0x00,
];

/// The link to 6143 from an extended partition that begins at 4095.
const REBASED: [u8; 16] = [
    0x00, 0xFE, 0xFF, 0xFF, 0x05, 0xFE, 0xFF, 0xFF, 0x00, 0x08, 0x00, 0x00, 0xE9, 0x03, 0x00, 0x00,
];

/// A disk that holds the layout with one logical partition; none where it has no targets.
fn disk_with_one(alloc: Global) -> Result<Option<MemDisk<512>>, Fail> {
    let mut disk: MemDisk<512> = blank(alloc)?;
    let done = put_targets(alloc, &mut disk, &without(alloc), &with_one(alloc)?).is_some();
    Ok(if done { Some(disk) } else { None })
}

/// The targets of another layout on that disk.
fn after_one(alloc: Global, new: &Parts) -> Result<Option<Vec<Target<512>>>, Fail> {
    match disk_with_one(alloc)? {
        Some(mut disk) => Ok(put_targets(alloc, &mut disk, &with_one(alloc)?, new)),
        None => Ok(None),
    }
}

/// Whether there are four targets, and each of these rows, a target, a place in it and what is shown there, is so.
fn four_show(targets: &[Target<512>], rows: &[(usize, usize, (u64, [u8; 16]))]) -> bool {
    for (k, place, wanted) in rows {
        if shown(targets, *k, *place) != *wanted {
            return false;
        }
    }
    targets.len() == 4
}

/// The layout with one logical partition, and an extended partition that begins a sector lower.
fn with_lower(alloc: Global) -> Result<Parts, Fail> {
    let first = empty_at(4095, 4096);
    let chain = [first, empty_at(4096, 6143), ebr_at(6143, None)];
    with_chain(alloc, 4095, &chain)
}

/// Whether its links count from there.
fn links_are_rebased(alloc: Global) -> Result<bool, Fail> {
    let rows = [(2, 462, (4096, REBASED)), (3, 446, (6143, LOGICAL))];
    match after_one(alloc, &with_lower(alloc)?)? {
        Some(targets) => Ok(four_show(&targets, &rows)),
        None => Ok(false),
    }
}

#[test]
fn links_count_from_the_wanted_first_sector(rt: HostRuntime) -> Result<(), Fail> {
    assert!(rt; links_are_rebased(rt.alloc())?);
    Ok(())
}

/// Whether a layout has no targets on a disk without partitions.
fn has_no_targets(alloc: Global, new: &Parts) -> Result<bool, Fail> {
    let mut disk: MemDisk<512> = blank(alloc)?;
    Ok(matches!(targets_of(alloc, &mut disk, &without(alloc), new), Ok(None)))
}

#[test]
fn a_protective_record_has_no_targets(rt: HostRuntime) -> Result<(), Fail> {
    let mut protective = without(rt.alloc());
    protective.records[0] = Some(new_record(0xEE, 1, 100));
    assert!(rt; has_no_targets(rt.alloc(), &protective)?);
    Ok(())
}

#[test]
fn a_container_in_the_chain_has_no_targets(rt: HostRuntime) -> Result<(), Fail> {
    let mut last = ebr_at(4096, None);
    last.logical = Some(new_record(0x0F, 1, 100));
    let nested = with_chain(rt.alloc(), 4096, &[last])?;
    assert!(rt; is_linked(16384, &nested.records, &nested.chain));
    assert!(rt; has_no_targets(rt.alloc(), &nested)?);
    Ok(())
}

/// Whether the chain with two logical partitions is linked on so many sectors, below these records.
fn two_are_linked(
    alloc: Global,
    sectors: u64,
    records: &[Option<Record>; 4],
) -> Result<bool, Fail> {
    let two = with_two(alloc)?;
    Ok(is_linked(sectors, records, &two.chain))
}

/// Whether a chain is linked in an extended partition from `first` on.
fn chain_is_linked(alloc: Global, first: u32, chain: &[Ebr]) -> Result<bool, Fail> {
    let parts = with_chain(alloc, first, chain)?;
    Ok(is_linked(16384, &parts.records, &parts.chain))
}

#[test]
fn chains_lie_in_one_extended_partition(rt: HostRuntime) -> Result<(), Fail> {
    let alloc = rt.alloc();
    let records = with_two(alloc)?.records;
    let extended = records[1];
    assert!(rt; two_are_linked(alloc, 16384, &records)?);
    assert!(rt; !two_are_linked(alloc, 8191, &records)?);
    assert!(rt; !two_are_linked(alloc, 16384, &[None; 4])?);
    assert!(rt; !two_are_linked(alloc, 16384, &[extended, extended, None, None])?);
    Ok(())
}

#[test]
fn chains_link_upward_from_the_first_sector(rt: HostRuntime) -> Result<(), Fail> {
    let alloc = rt.alloc();
    assert!(rt; is_linked(16384, &[None; 4], &without(alloc).chain));
    assert!(rt; !chain_is_linked(alloc, 4096, &[])?);
    assert!(rt; !chain_is_linked(alloc, 4096, &[empty_at(4096, 6143)])?);
    assert!(rt; !chain_is_linked(alloc, 4095, &[ebr_at(4096, None)])?);
    Ok(())
}

/// A disk of 16384 sectors, whose sector 0 is an empty boot record, and whose calls can fail.
fn blank_crash_disk(alloc: Global) -> Result<CrashDisk<512>, Fail> {
    let mut disk: CrashDisk<512> = CrashDisk::new(alloc, 16384, 4)?;
    let mut head = [0; 512];
    head[510] = 0x55;
    head[511] = 0xAA;
    put(&mut disk, Lba(0), &head);
    Ok(disk)
}

/// The sector whose read failed on the way to the targets of a first chain; none where they are there, and 1 where
/// something else went wrong.
fn failed_read(alloc: Global, disk: &mut CrashDisk<512>) -> Result<Option<u64>, Fail> {
    Ok(
        match targets_of(alloc, disk, &without(alloc), &with_one(alloc)?) {
            Err(Failure::Device(at)) => Some(at.0),
            Ok(Some(_)) => None,
            _ => Some(1),
        },
    )
}

#[test]
fn a_failed_read_is_told(rt: HostRuntime) -> Result<(), Fail> {
    let mut disk = blank_crash_disk(rt.alloc())?;
    for (call, place) in [(1, 0), (2, 4096), (3, 6143)] {
        disk.fail_at(call, false);
        assert!(rt; failed_read(rt.alloc(), &mut disk)? == Some(place));
    }
    assert!(rt; failed_read(rt.alloc(), &mut disk)? == None);
    Ok(())
}
