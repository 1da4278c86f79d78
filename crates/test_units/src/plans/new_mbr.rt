//! Plans of an MBR where a disk denotes none.

use pt_apply::Plan;
use pt_disks::in_memory::MemDisk;
use pt_layout::{Layout, Verdict, recover, verify};
use pt_plan::{CommitError, PlanError, commit_layout, plan_for_layout};
use std::alloc::Global;
use std::test::Fail;
use test_samples::{change, entry, holds, image_of, put, put_mbr, record, sector, table_disk};

/// An MBR of 256 sectors with one partition, and a logical one whose extended boot record stands in sector 100.
fn chained(alloc: Global) -> Result<Layout, Fail> {
    let mut disk: MemDisk<512> = MemDisk::new(alloc, 256)?;
    put_mbr(
        &mut disk,
        [record(0x83, 150, 20), record(0x05, 100, 40), None, None],
    )?;
    put(&mut disk, 100, &[0; 512])?;
    for (at, byte) in [(450, 0x83), (454, 4), (458, 16), (510, 0x55), (511, 0xAA)] {
        change(&mut disk, 100, at, byte)?;
    }
    Ok(recover(alloc, &mut disk)?)
}

/// An MBR of 256 sectors with one partition.
fn plain(alloc: Global, first: u32, count: u32) -> Result<Layout, Fail> {
    let mut disk: MemDisk<512> = MemDisk::new(alloc, 256)?;
    put_mbr(&mut disk, [record(0x83, first, count), None, None, None])?;
    Ok(recover(alloc, &mut disk)?)
}

/// A GPT of 256 sectors with one partition.
fn gpt(alloc: Global, first: u64, last: u64) -> Result<MemDisk<512>, Fail> {
    table_disk(alloc, &[entry(1, first, last), None, None, None])
}

/// The first sector that each phase writes; at most five phases.
fn firsts(plan: &Plan<512>) -> [Option<u64>; 5] {
    let mut firsts = [None; 5];
    for i in 0..plan.phases.len() {
        if let Some(write) = plan.phases[i].first() {
            if i < 5 {
                firsts[i] = Some(write.lba.0);
            }
        }
    }
    firsts
}

/// Whether a disk becomes one with this layout, by these phases.
fn becomes(
    alloc: Global,
    disk: &mut MemDisk<512>,
    wanted: &Layout,
    phases: [Option<u64>; 5],
) -> Result<bool, Fail> {
    let plan = plan_for_layout(alloc, disk, wanted)?;
    commit_layout(alloc, disk, wanted)?;
    match verify(alloc, disk)? {
        Verdict::Yes(found) => Ok(found.same(wanted) && firsts(&plan) == phases),
        Verdict::No(_) => Ok(false),
    }
}

#[test]
fn a_blank_disk_gets_an_mbr(rt: HostRuntime) -> Result<(), Fail> {
    let alloc = rt.alloc();
    let wanted = chained(alloc)?;
    let mut disk: MemDisk<512> = MemDisk::new(alloc, 256)?;
    assert!(rt;
        becomes(
            alloc,
            &mut disk,
            &wanted,
            [Some(100), Some(0), None, None, None]
        )?
    );
    Ok(())
}

#[test]
fn the_headers_of_a_gpt_are_zeroed(rt: HostRuntime) -> Result<(), Fail> {
    let alloc = rt.alloc();
    let wanted = chained(alloc)?;
    let mut disk = gpt(alloc, 40, 90)?;
    let phases = [Some(100), Some(0), Some(1), Some(255), None];
    assert!(rt; becomes(alloc, &mut disk, &wanted, phases)?);
    for lba in [1, 255] {
        assert!(rt; sector::<512, _>(&mut disk, lba)? == [0; 512]);
    }
    Ok(())
}

#[test]
fn a_header_in_a_new_partition_stays(rt: HostRuntime) -> Result<(), Fail> {
    let alloc = rt.alloc();
    let wanted = plain(alloc, 150, 106)?;
    let mut disk = gpt(alloc, 40, 90)?;
    let before = sector::<512, _>(&mut disk, 255)?;
    assert!(rt;
        becomes(
            alloc,
            &mut disk,
            &wanted,
            [Some(0), Some(1), None, None, None]
        )?
    );
    assert!(rt; sector::<512, _>(&mut disk, 255)? == before);
    Ok(())
}

#[test]
fn a_boot_record_in_an_old_partition_is_refused(rt: HostRuntime) -> Result<(), Fail> {
    let alloc = rt.alloc();
    let wanted = chained(alloc)?;
    let mut disk = gpt(alloc, 90, 110)?;
    let image = image_of(alloc, &mut disk)?;
    let answer = commit_layout(alloc, &mut disk, &wanted);
    assert!(rt; answer == Err(CommitError::Plan(PlanError::ReusedInOneBatch)));
    assert!(rt; holds(&mut disk, &image)?);
    Ok(())
}

#[test]
fn boot_code_stays(rt: HostRuntime) -> Result<(), Fail> {
    let alloc = rt.alloc();
    let wanted = plain(alloc, 150, 20)?;
    let mut disk: MemDisk<512> = MemDisk::new(alloc, 256)?;
    for at in [0, 439, 440, 445] {
        change(&mut disk, 0, at, 7)?;
    }
    assert!(rt; becomes(alloc, &mut disk, &wanted, [Some(0), None, None, None, None])?);
    let head = sector::<512, _>(&mut disk, 0)?;
    assert!(rt; head[0] == 7 && head[439] == 7 && head[440] == 7 && head[445] == 7);
    Ok(())
}
