//! Plans of repairs, which the command doesn't print, and what a repair says of an unsound table: the finding, of which it
//! prints a number alone.

ghost use Rattle.pt_sector.specs.Sectors.{IsSectorSize};

use pt_disks::in_memory::MemDisk;
use pt_layout::{Finding, Path};
use pt_plan::{RepairError, plan_for_repair, repair};
use pt_sector::Disk;
use std::alloc::Global;
use std::test::Fail;
use test_samples::{change, entry, gpt_disk, holds, image_of, table_disk};

/// How many writes each phase of a repair's plan has; at most five phases.
fn repair_counts(alloc: Global, disk: &mut MemDisk<512>) -> Result<[usize; 5], Fail> {
    let plan = plan_for_repair(alloc, disk)?;
    let mut counts = [0; 5];
    for i in 0..plan.phases.len() {
        if i < 5 {
            counts[i] = plan.phases[i].len();
        }
    }
    Ok(counts)
}

#[test]
fn a_primary_copy_is_mended_in_four_phases(rt: HostRuntime) -> Result<(), Fail> {
    let mut disk = gpt_disk(rt.alloc())?;
    assert!(rt; repair_counts(rt.alloc(), &mut disk)? == [0; 5]);
    change(&mut disk, 2, 200, 1)?;
    assert!(rt; repair_counts(rt.alloc(), &mut disk)? == [1, 32, 1, 33, 0]);
    Ok(())
}

/// What a repair says of a disk that it may not change, if it changes no byte.
fn refused<const B: usize, D: Disk<B>>(
    alloc: Global,
    disk: &mut D,
) -> Result<Option<RepairError>, Fail>
    requires { IsSectorSize B }
{
    let image = image_of(alloc, disk)?;
    let answer = repair(alloc, disk);
    if !holds(disk, &image)? {
        return Ok(None);
    }
    Ok(answer.err())
}

const fn path(number: u64) -> Path {
    Path {
        number,
        letter: None,
    }
}

/// What a repair says of a GPT disk with these entries, with and without a backup copy.
fn unsound_table<const B: usize>(
    alloc: Global,
    first: (u64, u64),
    second: (u8, u64, u64),
) -> Result<[Option<RepairError>; 2], Fail>
    requires { IsSectorSize B }
{
    let entries = [
        entry(1, first.0, first.1),
        entry(second.0, second.1, second.2),
        None,
        None,
    ];
    let mut disk: MemDisk<B> = table_disk(alloc, &entries)?;
    let whole = refused(alloc, &mut disk)?;
    change(&mut disk, 255, 0, 0)?;
    Ok([whole, refused(alloc, &mut disk)?])
}

#[test]
fn unsound_tables_are_refused(rt: HostRuntime) -> Result<(), Fail> {
    let alloc = rt.alloc();
    let outside = Finding::OutsideUsable(path(1));
    let rows = [
        ((1, 90), (2, 130, 140), outside),
        ((90, 80), (2, 130, 140), outside),
        ((100, 1 << 63), (2, 130, 140), outside),
        (
            (100, 150),
            (2, 150, 160),
            Finding::Overlap(path(1), path(2)),
        ),
        (
            (150, 160),
            (2, 100, 150),
            Finding::Overlap(path(2), path(1)),
        ),
        ((100, 120), (1, 130, 140), Finding::SameGuid(1, 2)),
    ];
    for (first, second, found) in rows {
        let want = [Some(RepairError::Unsound(found)); 2];
        assert!(rt; (unsound_table::<512>(alloc, first, second)?) == want);
        assert!(rt; (unsound_table::<4096>(alloc, first, second)?) == want);
    }
    Ok(())
}
