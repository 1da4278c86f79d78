//! When `g` is refused on MBR layouts, and how many GUIDs it takes, as docs/commands.md tells it.

ghost use Rattle.pt_sector.specs.Sectors.{IsSectorSize};

use pt_bsd::{LabelEntry, empty_label};
use pt_edit::{guids_for, to_gpt};
use pt_guid::Guid;
use pt_layout::{Body, Ebrs, Labelled, Labels, Layout};
use pt_mbr::{Ebr, Record};
use pt_sector::Lba;
use std::alloc::Global;
use std::test::Fail;
use test_samples::record;

/// Four fresh GUIDs.
const FRESH: [Guid; 4] = [Guid([1; 16]), Guid([2; 16]), Guid([3; 16]), Guid([4; 16])];

/// An MBR without labels.
fn mbr(
    alloc: Global,
    sectors: u64,
    records: [Option<Record>; 4],
    chain: &[Ebr],
) -> Result<Layout, Fail> {
    Ok(Layout {
        sectors,
        body: Body::Mbr {
            records,
            chain: Ebrs::new(Vec::from_slice(alloc, chain)?),
        },
        labels: Labels::new(Vec::new(alloc)),
    })
}

/// The number of the refusal, or 0.
fn refused<const B: usize>(alloc: Global, layout: Layout, guids: &[Guid]) -> u8
    requires { IsSectorSize B }
{
    match to_gpt::<B>(alloc, layout, guids) {
        Ok(_) => 0,
        Err(refusal) => refusal.number(),
    }
}

/// A disk of so many sectors with partition 1 of this type, from sector 2048 on.
fn lone(alloc: Global, sectors: u64, kind: u8, size: u32) -> Result<Layout, Fail> {
    mbr(
        alloc,
        sectors,
        [record(kind, 2048, size), None, None, None],
        &[],
    )
}

/// The refusal of a disk with partition 1 of this type and size.
fn refused_one(
    alloc: Global,
    sectors: u64,
    (kind, size): (u8, u32),
    guids: &[Guid],
) -> Result<u8, Fail> {
    let layout = lone(alloc, sectors, kind, size)?;
    Ok(refused::<512>(alloc, layout, guids))
}

/// The refusal of a disk without partitions.
fn refused_empty(alloc: Global, sectors: u64) -> Result<u8, Fail> {
    let layout = mbr(alloc, sectors, [None; 4], &[])?;
    Ok(refused::<512>(alloc, layout, &FRESH))
}

#[test]
fn too_little_room(rt: HostRuntime) -> Result<(), Fail> {
    let alloc = rt.alloc();
    assert!(rt; refused_empty(alloc, 67)? == 12);
    assert!(rt; refused_empty(alloc, 68)? == 0);
    assert!(rt; refused_one(alloc, 67, (0x0B, 1), &FRESH)? == 6);
    Ok(())
}

/// An extended boot record with a logical partition of one sector in the sector behind it, or none.
fn ebr(at: u64, kind: Option<u8>, next: Option<u64>) -> Ebr {
    Ebr {
        at: Lba(at),
        logical: match kind {
            Some(kind) => record(kind, 1, 1),
            None => None,
        },
        next: match next {
            Some(next) => Some(Lba(next)),
            None => None,
        },
    }
}

/// A disk with partition 1, the extended one as number 2, and logical partitions 5 and 6 behind an empty extended boot record.
fn chained(alloc: Global, first: u32) -> Result<Layout, Fail> {
    let at = u64::from(first);
    let chain = [
        ebr(at, None, Some(5000)),
        ebr(5000, Some(0x82), Some(5002)),
        ebr(5002, Some(0x07), None),
    ];
    let records = [
        record(0xEF, 2048, 8),
        record(0x0F, first, 16000),
        None,
        None,
    ];
    mbr(alloc, 16384, records, &chain)
}

/// The refusal of that disk.
fn refused_chain(alloc: Global, first: u32, guids: &[Guid]) -> Result<u8, Fail> {
    let layout = chained(alloc, first)?;
    Ok(refused::<512>(alloc, layout, guids))
}

#[test]
fn logical_partitions_want_guids_and_room(rt: HostRuntime) -> Result<(), Fail> {
    let alloc = rt.alloc();
    assert!(rt; guids_for(&chained(alloc, 4096)?) == 4);
    assert!(rt; refused_chain(alloc, 33, &FRESH)? == 12);
    Ok(())
}

#[test]
fn fresh_guids(rt: HostRuntime) -> Result<(), Fail> {
    let alloc = rt.alloc();
    let disk = FRESH[0];
    let first = FRESH[1];
    assert!(rt; refused_chain(alloc, 4096, &[disk, first, first])? == 10);
    assert!(rt; refused_one(alloc, 4096, (0x83, 8), &[disk, disk])? == 0);
    Ok(())
}

/// A disk with a slice whose label has one partition, at an offset in the slice.
fn sliced(alloc: Global, offset: u32) -> Result<Layout, Fail> {
    let mut label = empty_label(1024);
    label.entries[0] = Some(LabelEntry {
        size: 8,
        offset,
        fragment: 0,
        fstype: 7,
        frag: 0,
        cpg: 0,
    });
    let mut layout = lone(alloc, 4096, 0xA5, 1024)?;
    layout.labels = Labels::new(Vec::from_slice(alloc, &[Labelled { number: 1, label }])?);
    Ok(layout)
}

#[test]
fn a_partition_of_a_label_past_the_usable_sectors(rt: HostRuntime) -> Result<(), Fail> {
    let layout = sliced(rt.alloc(), 2008)?;
    assert!(rt; refused::<512>(rt.alloc(), layout, &FRESH) == 12);
    Ok(())
}
