//! Calls on a disk in memory that stops and fails.
//!
//! Each stands here without its contract: what is tried is proved to be safe, and looks at what comes of it, so it needs
//! to know nothing of what it calls.

use pt_disks::in_memory::{CrashDisk, MemDisk};
use pt_edit::{Edit, edit};
use pt_layout::{Layout, Verdict, recover, verify};
use pt_plan::runs::{Batch, Reply, session};
use pt_plan::{CommitError, RepairError, commit, repair};
use std::alloc::{AllocError, Global};
use std::test::Fail;
use test_samples::guids;

/// A call that fails, counted from 1, whether a write that fails reads as written, and which of three stops follows.
#[derive(Clone, Copy, Debug)]
pub struct Stop {
    pub call: u64,
    pub kept: bool,
    pub way: Way,
}

/// What is chosen for the sectors with pending writes.
#[derive(Clone, Copy, Debug)]
pub enum Way {
    /// What is durable.
    Oldest,
    /// What was written last.
    Newest,
    /// The one and the other in turn.
    InTurn,
}

impl Way {
    fn choices(self) -> [usize; 80] {
        match self {
            Way::Oldest => [0; 80],
            Way::Newest => [80; 80],
            Way::InTurn => in_turn(),
        }
    }
}

fn in_turn() -> [usize; 80] {
    let mut choices = [0; 80];
    for k in 0..40usize {
        choices[2 * k + 1] = 80;
    }
    choices
}

const fn stop_of(call: u64, kept: bool, way: Way) -> Stop {
    Stop { call, kept, way }
}

/// The failures of one call: a write kept and not, each with the three stops.
pub fn stops_at(call: u64) -> [Stop; 6] {
    [
        stop_of(call, false, Way::Oldest),
        stop_of(call, false, Way::Newest),
        stop_of(call, false, Way::InTurn),
        stop_of(call, true, Way::Oldest),
        stop_of(call, true, Way::Newest),
        stop_of(call, true, Way::InTurn),
    ]
}

/// From now on this call fails; none does where it is call 0.
pub fn fail(disk: &mut CrashDisk<512>, stop: Stop) {
    disk.fail_at(stop.call, stop.kept);
}

/// What the disk holds where it is stopped.
pub fn stopped(disk: CrashDisk<512>, stop: Stop) -> MemDisk<512> {
    disk.stop(&stop.way.choices())
}

/// What the disk denotes.
pub fn seen(alloc: Global, disk: &mut CrashDisk<512>) -> Result<Layout, Fail> {
    Ok(recover(alloc, disk)?)
}

/// What a stopped disk denotes.
pub fn denoted(alloc: Global, disk: &mut MemDisk<512>) -> Result<Layout, Fail> {
    Ok(recover(alloc, disk)?)
}

/// Whether a stopped disk is healthy with this layout.
pub fn is_healthy(alloc: Global, disk: &mut MemDisk<512>, layout: &Layout) -> Result<bool, Fail> {
    match verify(alloc, disk)? {
        Verdict::Yes(found) => Ok(found.same(layout)),
        Verdict::No(_) => Ok(false),
    }
}

/// What words without fresh GUIDs make of a layout; none where they aren't for it.
pub fn edited(alloc: Global, old: &Layout, edits: &[Edit]) -> Option<Layout> {
    edit::<512>(alloc, Some(old), old.sectors, edits, &[]).ok()
}

/// A commit.
pub fn committed(
    alloc: Global,
    disk: &mut CrashDisk<512>,
    edits: &[Edit],
) -> Result<(), CommitError> {
    commit(alloc, disk, edits, &guids())
}

/// A repair.
pub fn repaired(alloc: Global, disk: &mut CrashDisk<512>) -> Result<(), RepairError> {
    repair(alloc, disk)
}

/// A session.
pub fn served(
    alloc: Global,
    disk: &mut CrashDisk<512>,
    batches: &[Batch],
) -> Result<Vec<Reply>, AllocError> {
    session(alloc, disk, batches)
}
