//! Sessions: batches of edits, committed one after the other.

ghost use Rattle.std.specs.Prelude.{◌≡◌, [], ◌∷◌, ◌++◌, map, IfOk, OnErr};
ghost use Rattle.pt_sector.specs.Sectors.{IsSectorSize};
ghost use Rattle.pt_cases.specs.declared.primary.Primary.TheVariants.{Zeroed};
ghost use Rattle.pt_plan.specs.Batches.{Commits};
ghost use Rattle.pt_plan.specs.Sessions.{batch_of, CommitsByReads, SessionOf, SessionByReads, AreReplies, faults_in};
ghost use Rattle.pt_plan.specs.inner.Sessions.{Replied, Tried};

use crate::{CommitError, commit};
use pt_edit::Edit;
use pt_guid::Guid;
use pt_sector::{Disk, Fault};
use std::alloc::{AllocError, Global};

/// The edit words of one commit, and the fresh GUIDs that they may take.
#[derive(Debug, Drop)]
pub struct Batch {
    pub edits: Vec<Edit>,
    pub guids: Vec<Guid>,
}

/// What became of a batch.
#[derive(Clone, Copy, Debug, PartialEq, Eq)]
pub enum Reply {
    /// It is done, and durable.
    Done,
    /// It was refused, for this reason, or got no memory; the first flush was done and nothing else. Never `Device`.
    Refused(CommitError),
    /// The device failed, and the session tried no more. The batch may be in or not, but never in part.
    Fault(Fault),
    /// A batch before it met a fault of the device: nothing was done for this one.
    NotTried,
}

/// Commits the words of one batch, unless there was a fault.
fn attempt<const B: usize, D: Disk<B>>(
    alloc: Global,
    disk: &mut D,
    edits: &[Edit],
    guids: &[Guid],
    faulted: &mut bool,
) -> Reply
    requires size { IsSectorSize B }
    ensures count { D.count disk.new ≡ D.count disk.old }
    ensures name { D.name disk.new ≡ D.name disk.old }
    ensures replied { Replied faulted.old result faulted.new }
    ensures blames { D.faults disk.new ≡ D.faults disk.old ++ faults_in (result ∷ []) }
    ensures tried { D.tells → Tried (Commits Zeroed B (D.count disk.old)) (record { edits = edits.now; guids = guids.now }) result
        (D.told disk.old) (D.told disk.new) }
    ensures place { D.tells → Tried (CommitsByReads Zeroed B (D.count disk.old)) (record { edits = edits.now; guids = guids.now }) result
        (D.told disk.old) (D.told disk.new) }
{
    if *faulted {
        return Reply::NotTried;
    }
    match commit(alloc, disk, edits, guids) {
        Ok(()) => Reply::Done,
        Err(error) => match error {
            CommitError::Device(fault) => {
                *faulted = true;
                Reply::Fault(fault)
            }
            error => Reply::Refused(error),
        },
    }
}

/// Commits batches in order, each by [`commit`], and replies to each. After a fault of the device no more is tried.
///
/// The replies' memory is taken before the first batch: where it is refused nothing was done.
pub fn session<const B: usize, D: Disk<B>>(
    alloc: Global,
    disk: &mut D,
    batches: &[Batch],
) -> Result<Vec<Reply>, AllocError>
    requires size { IsSectorSize B }
    ensures count { D.count disk.new ≡ D.count disk.old }
    ensures name { D.name disk.new ≡ D.name disk.old }
    ensures memory { OnErr result (disk.new ≡ disk.old) }
    ensures replies { IfOk result (λ rs. AreReplies (map batch_of batches.now) rs.items) }
    ensures blames { IfOk result (λ rs. D.faults disk.new ≡ D.faults disk.old ++ faults_in rs.items) }
    ensures session { D.tells → IfOk result
        (λ rs. SessionOf Zeroed B (D.count disk.old) (map batch_of batches.now) rs.items (D.told disk.old) (D.told disk.new)) }
    ensures place { D.tells → IfOk result
        (λ rs. SessionByReads Zeroed B (D.count disk.old) (map batch_of batches.now) rs.items (D.told disk.old) (D.told disk.new)) }
{
    let mut replies = Vec::with_capacity(alloc, batches.len())?;
    let mut faulted = false;
    for batch in batches {
        let reply = attempt(
            alloc,
            disk,
            batch.edits.as_slice(),
            batch.guids.as_slice(),
            &mut faulted,
        );
        replies.push_reserved(reply);
    }
    Ok(replies)
}
