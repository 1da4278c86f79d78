//! Data that is carried before a table changes: what is refused, and what stops and failures leave.

use pt_carry::{CarryError, Unfit, commit_like_with};
use pt_disks::in_memory::{CrashDisk, MemDisk};
use pt_guid::fresh;
use pt_layout::{Layout, Verdict, recover, verify};
use pt_plan::{LikeError, Primary, commit};
use pt_sector::{Extent, Fault, Lba};
use std::alloc::Global;
use std::test::Fail;
use test_samples::{Image, crash_disk, holds, image_of, made, put, put_mbr, record, sector, words};

/// 256 sectors, with partition 1 from sector 100 to 120.
fn old_disk(alloc: Global) -> Result<MemDisk<512>, Fail> {
    made(alloc, 256, false, &["o", "a:1", "n:1:100:120"])
}

/// A copy of it on which partition 2 was made, from sector 40 to 60, with bytes in three of its sectors and in one before it.
fn other_disk(alloc: Global) -> Result<MemDisk<512>, Fail> {
    let mut other = old_disk(alloc)?;
    let edits = words(alloc, &["a:1", "n:2:40:60"])?;
    commit(alloc, &mut other, &edits, &[fresh([7; 16])])?;
    put(&mut other, 40, &[1; 512])?;
    put(&mut other, 41, &[2; 512])?;
    put(&mut other, 60, &[3; 512])?;
    put(&mut other, 36, &[4; 512])?;
    Ok(other)
}

/// The runs from a first to a last sector each.
fn runs(alloc: Global, pairs: &[(u64, u64)]) -> Result<Vec<Extent>, Fail> {
    let mut made = Vec::new(alloc);
    for pair in pairs {
        if let Some(run) = Extent::new(Lba(pair.0), Lba(pair.1)) {
            made.push(run)?;
        }
    }
    Ok(made)
}

/// Where the bytes are.
fn data(alloc: Global) -> Result<Vec<Extent>, Fail> {
    runs(alloc, &[(40, 41), (60, 60), (36, 36)])
}

/// Whether the sectors of the data are those of the other disk.
fn has_data(disk: &mut MemDisk<512>) -> Result<bool, Fail> {
    let first: [u8; 512] = sector(disk, 40)?;
    let second: [u8; 512] = sector(disk, 41)?;
    let last: [u8; 512] = sector(disk, 60)?;
    let before: [u8; 512] = sector(disk, 36)?;
    Ok(first == [1; 512] && second == [2; 512] && last == [3; 512] && before == [4; 512])
}

/// Whether a disk is healthy with this layout.
fn is_healthy(alloc: Global, disk: &mut MemDisk<512>, layout: &Layout) -> Result<bool, Fail> {
    match verify(alloc, disk)? {
        Verdict::Yes(found) => Ok(found.same(layout)),
        Verdict::No(_) => Ok(false),
    }
}

#[test]
fn a_partition_comes_with_its_data(rt: HostRuntime) -> Result<(), Fail> {
    let alloc = rt.alloc();
    for primary in [Primary::Zeroed, Primary::Kept] {
        let mut disk = old_disk(alloc)?;
        let mut other = other_disk(alloc)?;
        let wanted = recover(alloc, &mut other)?;
        let beside = image_of(alloc, &mut other)?;
        commit_like_with(alloc, &mut disk, &mut other, &data(alloc)?, primary)?;
        assert!(rt; is_healthy(alloc, &mut disk, &wanted)?);
        assert!(rt; has_data(&mut disk)?);
        assert!(rt; holds(&mut other, &beside)?);
    }
    Ok(())
}

#[test]
fn an_mbr_becomes_a_gpt_with_data(rt: HostRuntime) -> Result<(), Fail> {
    let alloc = rt.alloc();
    let mut disk: MemDisk<512> = MemDisk::new(alloc, 256)?;
    put_mbr(&mut disk, [record(0x83, 100, 21), None, None, None])?;
    let mut other = other_disk(alloc)?;
    let wanted = recover(alloc, &mut other)?;
    commit_like_with(alloc, &mut disk, &mut other, &data(alloc)?, Primary::Kept)?;
    assert!(rt; is_healthy(alloc, &mut disk, &wanted)?);
    assert!(rt; has_data(&mut disk)?);
    Ok(())
}

/// What is said of data in these runs, if neither disk changes.
fn refused(alloc: Global, pairs: &[(u64, u64)]) -> Result<Option<CarryError>, Fail> {
    let mut disk = old_disk(alloc)?;
    let mut other = other_disk(alloc)?;
    let before = image_of(alloc, &mut disk)?;
    let beside = image_of(alloc, &mut other)?;
    let data = runs(alloc, pairs)?;
    let answer = commit_like_with(alloc, &mut disk, &mut other, &data, Primary::Kept);
    if !holds(&mut disk, &before)? || !holds(&mut other, &beside)? {
        return Ok(None);
    }
    Ok(answer.err())
}

fn unfit(at: u64, why: Unfit) -> Option<CarryError> {
    Some(CarryError::Refused(Lba(at), why))
}

#[test]
fn unfit_data_is_refused_by_its_first_sector(rt: HostRuntime) -> Result<(), Fail> {
    let alloc = rt.alloc();
    assert!(rt; refused(alloc, &[(40, 60), (90, 130)])? == unfit(100, Unfit::Owned));
    assert!(rt; refused(alloc, &[(200, 300)])? == unfit(223, Unfit::Table));
    assert!(rt; refused(alloc, &[(256, 256)])? == unfit(256, Unfit::Outside));
    assert!(rt; refused(alloc, &[(0, 0)])? == unfit(0, Unfit::Table));
    assert!(rt; refused(alloc, &[(120, 120), (0, 0)])? == unfit(120, Unfit::Owned));
    Ok(())
}

#[test]
fn a_table_of_the_other_disk_is_no_data(rt: HostRuntime) -> Result<(), Fail> {
    let alloc = rt.alloc();
    let mut disk: MemDisk<512> = MemDisk::new(alloc, 256)?;
    put_mbr(&mut disk, [record(0x83, 100, 21), None, None, None])?;
    let mut other = other_disk(alloc)?;
    let data = runs(alloc, &[(20, 20)])?;
    let answer = commit_like_with(alloc, &mut disk, &mut other, &data, Primary::Kept);
    assert!(rt; answer.err() == unfit(20, Unfit::NewTable));
    Ok(())
}

#[test]
fn what_an_empty_disk_is_read_by_is_no_data(rt: HostRuntime) -> Result<(), Fail> {
    let alloc = rt.alloc();
    let mut disk: MemDisk<512> = MemDisk::new(alloc, 256)?;
    let mut other: MemDisk<512> = MemDisk::new(alloc, 256)?;
    put_mbr(&mut other, [record(0x83, 100, 21), None, None, None])?;
    let data = runs(alloc, &[(1, 1)])?;
    let answer = commit_like_with(alloc, &mut disk, &mut other, &data, Primary::Kept);
    // a GPT's header would stand in it
    assert!(rt; answer.err() == unfit(1, Unfit::Read));
    Ok(())
}

/// What is chosen for the sectors with pending writes: the durable bytes, the newest, or both in turn.
fn choices(way: u64) -> [usize; 80] {
    let mut choices = [0; 80];
    for k in 0..80usize {
        if way == 1 || (way == 2 && k % 2 == 1) {
            choices[k] = 80;
        }
    }
    choices
}

/// What came of a call in which the `k`-th call of the disk failed, and of the stop after it.
#[derive(Clone, Copy, PartialEq, Eq)]
enum Outcome {
    /// The old layout.
    Old,
    /// The new layout, with the data.
    New,
    /// Something else.
    Neither,
}

/// A disk that was stopped is one of the two.
fn left(
    alloc: Global,
    disk: &mut MemDisk<512>,
    old: &Layout,
    new: &Layout,
) -> Result<Outcome, Fail> {
    let layout = recover(alloc, disk)?;
    if layout.same(old) {
        return Ok(Outcome::Old);
    }
    if layout.same(new) && has_data(disk)? {
        return Ok(Outcome::New);
    }
    Ok(Outcome::Neither)
}

/// Whether the call was done though its `k`-th call of the disk was to fail, and what the stop left.
fn stopped(
    alloc: Global,
    image: &Image<512>,
    other: &mut MemDisk<512>,
    k: u64,
) -> Result<(bool, CrashDisk<512>), Fail> {
    let mut disk: CrashDisk<512> = crash_disk(alloc, image)?;
    disk.fail_at(k, k % 2 == 0);
    let answer = commit_like_with(alloc, &mut disk, other, &data(alloc)?, Primary::Kept);
    Ok((answer.is_ok(), disk))
}

#[test]
fn each_stop_leaves_the_old_table_or_the_new_one_with_its_data(
    rt: HostRuntime,
) -> Result<(), Fail> {
    let alloc = rt.alloc();
    let mut before = old_disk(alloc)?;
    let mut other = other_disk(alloc)?;
    let old = recover(alloc, &mut before)?;
    let new = recover(alloc, &mut other)?;
    let image = image_of(alloc, &mut before)?;
    let mut counts = [0u64; 2];
    let mut finished = false;
    // each fifth call fails, and a way of stopping comes with each kind of call in its turn
    for step in 0..400u64 {
        if finished {
            break;
        }
        let (done, disk) = stopped(alloc, &image, &mut other, 5 * step + 1)?;
        let mut after = disk.stop(&choices(step % 3));
        match left(alloc, &mut after, &old, &new)? {
            Outcome::Old => counts[0] = counts[0].saturating_add(1),
            Outcome::New => counts[1] = counts[1].saturating_add(1),
            Outcome::Neither => assert!(rt; false),
        }
        if done {
            assert!(rt; is_healthy(alloc, &mut after, &new)?);
            assert!(rt; has_data(&mut after)?);
            finished = true;
        }
    }
    assert!(rt; finished);
    assert!(rt; counts[0] > 20 && counts[1] > 5);
    Ok(())
}

#[test]
fn another_size_is_refused_first(rt: HostRuntime) -> Result<(), Fail> {
    let alloc = rt.alloc();
    let mut disk = old_disk(alloc)?;
    let mut larger: MemDisk<512> = made(alloc, 512, false, &["o"])?;
    let data = runs(alloc, &[(100, 100)])?;
    let answer = commit_like_with(alloc, &mut disk, &mut larger, &data, Primary::Kept);
    assert!(rt; answer == Err(CarryError::NotLike(LikeError::OtherSize)));
    Ok(())
}

#[test]
fn errors_have_sentences(rt: HostRuntime) -> Result<(), Fail> {
    let alloc = rt.alloc();
    let owned = CarryError::Refused(Lba(100), Unfit::Owned);
    let text = format!(in alloc; "{owned}")?;
    assert!(rt;
        text.as_str() == "data of sector 100 isn't carried: a partition of the disk owns it"
    );
    let other = format!(in alloc; "{}", CarryError::Differs(Lba(7)))?;
    assert!(rt; other.as_str() == "sector 7 doesn't read as it was written");
    assert!(rt; owned.number() == 2);
    assert!(rt; CarryError::Device(Fault::Flush).number() == 4);
    Ok(())
}
