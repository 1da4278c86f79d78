//! Commits of a layout that a caller has from elsewhere, and of the layout of another disk.

ghost use Rattle.std.specs.Prelude.{◌≤◌};
ghost use Rattle.pt_sector.specs.Sectors.{IsSectorSize};

use pt_apply::Plan;
use pt_disks::in_memory::MemDisk;
use pt_layout::{Layout, NoTable, Verdict, recover, verify};
use pt_plan::{
    CommitError, LikeError, PlanError, Primary, Wanted, checked_plan_for_layout, checked_plan_like,
    checked_plan_like_by, checked_plan_wanted, commit_layout, commit_like, commit_like_by,
    commit_wanted, plan_for_layout, plan_for_repair_by, plan_like, plan_like_by, plan_wanted,
    repair_by,
};
use std::alloc::Global;
use std::test::Fail;
use test_samples::{holds, image_of, made, put, put_mbr, record};

/// A GPT disk of so many sectors with one partition, which has a name.
fn other_disk<const B: usize>(alloc: Global, sectors: u64) -> Result<MemDisk<B>, Fail>
    requires size { IsSectorSize B }
    requires few { sectors ≤ 16384 }
{
    made(alloc, sectors, false, &["o", "n:1:0:0:8200", "c:1:swap"])
}

/// An MBR disk of 4096 sectors with one partition.
fn mbr_disk<const B: usize>(alloc: Global) -> Result<MemDisk<B>, Fail>
    requires { IsSectorSize B }
{
    let mut disk = MemDisk::new(alloc, 4096)?;
    put_mbr(&mut disk, [record(0x83, 2048, 1024), None, None, None])?;
    Ok(disk)
}

/// Whether a disk is healthy with this layout.
fn has<const B: usize>(alloc: Global, disk: &mut MemDisk<B>, layout: &Layout) -> Result<bool, Fail>
    requires { IsSectorSize B }
{
    match verify(alloc, disk)? {
        Verdict::Yes(found) => Ok(found.same(layout)),
        Verdict::No(_) => Ok(false),
    }
}

/// How many writes each phase of a plan has; at most five phases.
fn counts<const B: usize>(plan: &Plan<B>) -> [usize; 5] {
    let mut counts = [0; 5];
    for i in 0..plan.phases.len() {
        if i < 5 {
            counts[i] = plan.phases[i].len();
        }
    }
    counts
}

/// Whether a layout is committed to an empty disk, and again to the disk that has it.
fn is_committed<const B: usize>(alloc: Global) -> Result<bool, Fail>
    requires { IsSectorSize B }
{
    let wanted = recover(alloc, &mut other_disk::<B>(alloc, 4096)?)?;
    let mut disk: MemDisk<B> = MemDisk::new(alloc, 4096)?;
    commit_layout(alloc, &mut disk, &wanted)?;
    let first = has(alloc, &mut disk, &wanted)?;
    let image = image_of(alloc, &mut disk)?;
    commit_layout(alloc, &mut disk, &wanted)?;
    Ok(first && holds(&mut disk, &image)?)
}

#[test]
fn a_layout_is_committed(rt: HostRuntime) -> Result<(), Fail> {
    assert!(rt; is_committed::<512>(rt.alloc())?);
    assert!(rt; is_committed::<4096>(rt.alloc())?);
    Ok(())
}

/// Whether an MBR disk becomes like a GPT disk, which stays as it was.
fn becomes_like<const B: usize>(alloc: Global) -> Result<bool, Fail>
    requires { IsSectorSize B }
{
    let mut other = other_disk::<B>(alloc, 4096)?;
    let image = image_of(alloc, &mut other)?;
    let wanted = recover(alloc, &mut other)?;
    let mut disk = mbr_disk::<B>(alloc)?;
    commit_like(alloc, &mut disk, &mut other)?;
    Ok(has(alloc, &mut disk, &wanted)? && holds(&mut other, &image)?)
}

#[test]
fn a_disk_becomes_like_another(rt: HostRuntime) -> Result<(), Fail> {
    assert!(rt; becomes_like::<512>(rt.alloc())?);
    assert!(rt; becomes_like::<4096>(rt.alloc())?);
    Ok(())
}

/// What a commit of another disk's layout says, if it changes neither disk.
fn refused<const B: usize>(
    alloc: Global,
    disk: &mut MemDisk<B>,
    other: &mut MemDisk<B>,
) -> Result<Option<LikeError>, Fail>
    requires { IsSectorSize B }
{
    let before = image_of(alloc, disk)?;
    let beside = image_of(alloc, other)?;
    let answer = commit_like(alloc, disk, other);
    if !holds(disk, &before)? || !holds(other, &beside)? {
        return Ok(None);
    }
    Ok(answer.err())
}

#[test]
fn another_size_is_refused_by_name(rt: HostRuntime) -> Result<(), Fail> {
    let alloc = rt.alloc();
    let mut disk = mbr_disk::<512>(alloc)?;
    let mut larger = other_disk::<512>(alloc, 8192)?;
    let mut blank: MemDisk<512> = MemDisk::new(alloc, 8192)?;
    assert!(rt; refused(alloc, &mut disk, &mut larger)? == Some(LikeError::OtherSize));
    assert!(rt; refused(alloc, &mut disk, &mut blank)? == Some(LikeError::OtherSize));
    assert!(rt; plan_like(alloc, &mut disk, &mut larger).err() == Some(LikeError::OtherSize));
    let text = format!(in alloc; "{}", LikeError::OtherSize)?;
    assert!(rt; text.as_str() == "the other disk has another number of sectors");
    Ok(())
}

#[test]
fn a_disk_without_a_table_is_no_model(rt: HostRuntime) -> Result<(), Fail> {
    let alloc = rt.alloc();
    let mut disk = mbr_disk::<512>(alloc)?;
    let mut blank: MemDisk<512> = MemDisk::new(alloc, 4096)?;
    let answer = refused(alloc, &mut disk, &mut blank)?;
    assert!(rt; matches!(answer, Some(LikeError::Other(NoTable::NoCopy(_, _)))));
    Ok(())
}

#[test]
fn a_layout_for_another_size_has_no_plan(rt: HostRuntime) -> Result<(), Fail> {
    let alloc = rt.alloc();
    let wanted = recover(alloc, &mut other_disk::<512>(alloc, 8192)?)?;
    let mut disk = mbr_disk::<512>(alloc)?;
    let image = image_of(alloc, &mut disk)?;
    let answer = commit_layout(alloc, &mut disk, &wanted);
    assert!(rt; answer == Err(CommitError::Plan(PlanError::NotOneSwitch)));
    assert!(rt; holds(&mut disk, &image)?);
    Ok(())
}

#[test]
fn plans_for_a_layout_on_an_empty_disk(rt: HostRuntime) -> Result<(), Fail> {
    let alloc = rt.alloc();
    let mut other = other_disk::<512>(alloc, 4096)?;
    let wanted = recover(alloc, &mut other)?;
    let mut disk: MemDisk<512> = MemDisk::new(alloc, 4096)?;
    // zeros stand in sector 1 already
    let kept = [32, 1, 33, 1, 0];
    assert!(rt; counts(&plan_for_layout(alloc, &mut disk, &wanted)?) == kept);
    assert!(rt; counts(&checked_plan_for_layout(alloc, &mut disk, &wanted)?) == kept);
    assert!(rt; counts(&plan_like(alloc, &mut disk, &mut other)?) == kept);
    assert!(rt; counts(&checked_plan_like(alloc, &mut disk, &mut other)?) == kept);
    Ok(())
}

#[test]
fn plans_by_the_table_on_an_empty_disk(rt: HostRuntime) -> Result<(), Fail> {
    let alloc = rt.alloc();
    let by_table = Primary::Zeroed;
    let mut other = other_disk::<512>(alloc, 4096)?;
    let layout = recover(alloc, &mut other)?;
    let wanted = Wanted::Layout(&layout);
    let mut disk: MemDisk<512> = MemDisk::new(alloc, 4096)?;
    let five = [1, 32, 1, 33, 1];
    assert!(rt; counts(&plan_wanted(alloc, &mut disk, &wanted, by_table)?) == five);
    assert!(rt; counts(&checked_plan_wanted(alloc, &mut disk, &wanted, by_table)?) == five);
    assert!(rt; counts(&plan_like_by(alloc, &mut disk, &mut other, by_table)?) == five);
    assert!(rt; counts(&checked_plan_like_by(alloc, &mut disk, &mut other, by_table)?) == five);
    Ok(())
}

/// Whether a layout is committed, by the table and with the primary copy kept, also as that of another disk, and a lost backup
/// copy mended.
fn is_wanted<const B: usize>(alloc: Global, primary: Primary) -> Result<bool, Fail>
    requires { IsSectorSize B }
{
    let mut other = other_disk::<B>(alloc, 4096)?;
    let wanted = recover(alloc, &mut other)?;
    let mut disk = mbr_disk::<B>(alloc)?;
    commit_wanted(alloc, &mut disk, &Wanted::Layout(&wanted), primary)?;
    let first = has(alloc, &mut disk, &wanted)?;
    let mut blank: MemDisk<B> = MemDisk::new(alloc, 4096)?;
    commit_like_by(alloc, &mut blank, &mut other, primary)?;
    let second = has(alloc, &mut blank, &wanted)?;
    put(&mut blank, 4095, &[0; B])?;
    repair_by(alloc, &mut blank, primary)?;
    Ok(first && second && has(alloc, &mut blank, &wanted)?)
}

#[test]
fn a_layout_is_committed_either_way(rt: HostRuntime) -> Result<(), Fail> {
    for primary in [Primary::Zeroed, Primary::Kept] {
        assert!(rt; is_wanted::<512>(rt.alloc(), primary)?);
        assert!(rt; is_wanted::<4096>(rt.alloc(), primary)?);
    }
    Ok(())
}

#[test]
fn a_lost_backup_is_mended_alone(rt: HostRuntime) -> Result<(), Fail> {
    let alloc = rt.alloc();
    let mut disk = other_disk::<512>(alloc, 4096)?;
    put(&mut disk, 4095, &[0; 512])?;
    let kept = plan_for_repair_by(alloc, &mut disk, Primary::Kept)?;
    assert!(rt; counts(&kept) == [33, 0, 0, 0, 0]);
    let by_table = plan_for_repair_by(alloc, &mut disk, Primary::Zeroed)?;
    assert!(rt; counts(&by_table) == [33, 1, 32, 1, 0]);
    let own = plan_wanted(alloc, &mut disk, &Wanted::Own, Primary::Kept)?;
    assert!(rt; counts(&own) == [33, 0, 0, 0, 0]);
    Ok(())
}
