//! Sessions of three names.

use pt_disks::in_memory::MemDisk;
use pt_edit::{Refusal, edit};
use pt_layout::{Layout, Verdict, verify};
use pt_plan::CommitError;
use pt_plan::runs::{Reply, session};
use pt_sector::{Disk, Fault};
use std::alloc::Global;
use std::test::Fail;
use test_samples::{batches, crash_disk, gpt_disk, holds, image_of, words};

/// Whether a session of these words, each a batch, gets these replies.
fn replies_are<D: Disk<512>>(
    alloc: Global,
    disk: &mut D,
    texts: &[&str],
    wanted: &[Reply],
) -> Result<bool, Fail> {
    let batches = batches(alloc, texts)?;
    let replies = session(alloc, disk, &batches)?;
    Ok(replies.as_slice() == wanted)
}

/// The layout with this name of its first partition.
fn named(alloc: Global, layout: &Layout, name: &str) -> Result<Layout, Fail> {
    let word = format!(in alloc; "c:1:{name}")?;
    let words = words(alloc, &[word.as_str()])?;
    Ok(edit::<512>(alloc, Some(layout), layout.sectors, &words, &[])?)
}

/// Whether a disk is healthy and its first partition has this name: giving it anew changes nothing.
fn name_is(alloc: Global, disk: &mut MemDisk<512>, name: &str) -> Result<bool, Fail> {
    match verify(alloc, disk)? {
        Verdict::Yes(layout) => Ok(named(alloc, &layout, name)?.same(&layout)),
        Verdict::No(_) => Ok(false),
    }
}

#[test]
fn a_refused_batch_stops_no_session(rt: HostRuntime) -> Result<(), Fail> {
    let alloc = rt.alloc();
    let mut disk = gpt_disk(alloc)?;
    let refused = Reply::Refused(CommitError::Edit(Refusal::NoSuchPartition));
    let wanted = [Reply::Done, refused, Reply::Done];
    let three = ["c:1:a", "c:9:b", "c:1:d"];
    assert!(rt; replies_are(alloc, &mut disk, &three, &wanted)?);
    assert!(rt; name_is(alloc, &mut disk, "d")?);
    assert!(rt; replies_are(alloc, &mut disk, &[], &[])?);
    Ok(())
}

#[test]
fn nothing_is_done_after_a_first_call_that_fails(rt: HostRuntime) -> Result<(), Fail> {
    let alloc = rt.alloc();
    let before = image_of(alloc, &mut gpt_disk(alloc)?)?;
    let mut disk = crash_disk(alloc, &before)?;
    disk.fail_at(1, false);
    let wanted = [Reply::Fault(Fault::Flush), Reply::NotTried, Reply::NotTried];
    let three = ["c:1:a", "c:9:b", "c:1:d"];
    assert!(rt; replies_are(alloc, &mut disk, &three, &wanted)?);
    assert!(rt; holds(&mut disk, &before)?);
    Ok(())
}
