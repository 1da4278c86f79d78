//! What follows a fault: a repair or another commit, each call of which fails in turn.

use crate::case::{Case, Left};
use crate::device::{
    Stop, Way, committed, denoted, edited, fail, is_healthy, repaired, seen, stopped, stops_at,
};
use pt_disks::in_memory::CrashDisk;
use pt_edit::{Edit, Refusal};
use pt_layout::Layout;
use pt_plan::{CommitError, RepairError};
use std::alloc::Global;
use std::test::Fail;
use test_samples::{holds, image_of};

/// What a second call answered.
#[derive(Clone, Copy, Debug, PartialEq, Eq)]
enum Said {
    Done,
    Failed,
    /// The words aren't for this table.
    Refused,
    /// What it may not.
    Wrong,
}

fn said_of_commit(answer: Result<(), CommitError>) -> Said {
    match answer {
        Ok(()) => Said::Done,
        Err(CommitError::Device(_)) => Said::Failed,
        Err(CommitError::Edit(Refusal::NotForThisTable)) => Said::Refused,
        Err(_) => Said::Wrong,
    }
}

fn said_of_repair(answer: Result<(), RepairError>) -> Said {
    match answer {
        Ok(()) => Said::Done,
        Err(RepairError::Device(_)) => Said::Failed,
        Err(_) => Said::Wrong,
    }
}

/// A repair, or a commit of words where there are some.
fn second(alloc: Global, disk: &mut CrashDisk<512>, edits: Option<&[Edit]>) -> Said {
    match edits {
        None => said_of_repair(repaired(alloc, disk)),
        Some(edits) => said_of_commit(committed(alloc, disk, edits)),
    }
}

/// What the second call makes of a layout; none where its words aren't for it.
fn wanted(alloc: Global, old: &Layout, edits: Option<&[Edit]>) -> Result<Option<Layout>, Fail> {
    match edits {
        None => Ok(Some(old.copy(alloc)?)),
        Some(edits) => Ok(edited(alloc, old, edits)),
    }
}

fn is_wanted(found: &Layout, wanted: &Option<Layout>) -> bool {
    match wanted {
        Some(layout) => found.same(layout),
        None => false,
    }
}

/// What the disk of a case denotes after a first fault, and what the second call is to make of it.
#[derive(Drop)]
struct Between {
    seen: Layout,
    wanted: Option<Layout>,
}

/// Whether a stopped disk denotes what it may after the second call said this.
fn is_good(
    alloc: Global,
    case: &Case,
    between: &Between,
    then: Stop,
    said: Said,
    disk: CrashDisk<512>,
) -> Result<bool, Fail> {
    let mut left = stopped(disk, then);
    let found = denoted(alloc, &mut left)?;
    let before = if then.call == 1 {
        case.which(&found) != Left::Neither
    } else {
        found.same(&between.seen)
    };
    match said {
        Said::Done => {
            Ok(is_wanted(&found, &between.wanted) && is_healthy(alloc, &mut left, &found)?)
        }
        Said::Failed => Ok(before || is_wanted(&found, &between.wanted)),
        Said::Refused => Ok(before && between.wanted.is_none()),
        Said::Wrong => Ok(false),
    }
}

/// What the second call said after a first fault; the disk that it leaves where it is stopped denotes what it may.
fn after_fault(
    alloc: Global,
    case: &Case,
    first: Stop,
    then: Stop,
    edits: Option<&[Edit]>,
) -> Result<Said, Fail> {
    let (mut disk, _answer) = case.applied(alloc, first)?;
    let seen = seen(alloc, &mut disk)?;
    let is_one = case.which(&seen) != Left::Neither;
    let wanted = wanted(alloc, &seen, edits)?;
    let between = Between { seen, wanted };
    fail(&mut disk, then);
    let said = second(alloc, &mut disk, edits);
    if is_one && is_good(alloc, case, &between, then, said, disk)? {
        Ok(said)
    } else {
        Err(Fail::new(format_args!("{first:?}, {then:?}: {said:?}")))
    }
}

/// No call fails.
const NONE: Stop = Stop {
    call: 0,
    kept: false,
    way: Way::Oldest,
};

/// Whether a repair is done, and changes no byte.
fn is_idle(alloc: Global, disk: &mut CrashDisk<512>) -> Result<bool, Fail> {
    let image = image_of(alloc, disk)?;
    Ok(repaired(alloc, disk).is_ok() && holds(disk, &image)?)
}

/// Whether a disk is mended by a repair, and one more changes no byte.
fn is_mended(alloc: Global, case: &Case, mut disk: CrashDisk<512>) -> Result<bool, Fail> {
    if repaired(alloc, &mut disk).is_err() || !is_idle(alloc, &mut disk)? {
        return Ok(false);
    }
    let layout = seen(alloc, &mut disk)?;
    let mut left = stopped(disk, NONE);
    Ok(case.which(&layout) != Left::Neither && is_healthy(alloc, &mut left, &layout)?)
}

/// After two faults, the second one in a repair, the next repair is done, and one more changes no byte.
fn settle(alloc: Global, case: &Case, first: Stop, then: Stop) -> Result<(), Fail> {
    let (mut disk, _answer) = case.applied(alloc, first)?;
    fail(&mut disk, then);
    let _said = second(alloc, &mut disk, None);
    fail(&mut disk, NONE);
    if is_mended(alloc, case, disk)? {
        Ok(())
    } else {
        Err(Fail::new(format_args!("{first:?}, {then:?}: not mended")))
    }
}

/// Tries the stops after this call of a second run; whether it met the fault.
fn meets_fault(
    alloc: Global,
    case: &Case,
    first: Stop,
    call: u64,
    edits: Option<&[Edit]>,
) -> Result<bool, Fail> {
    let mut said = Said::Done;
    for then in stops_at(call) {
        said = after_fault(alloc, case, first, then, edits)?;
    }
    if edits.is_none() {
        for kept in [false, true] {
            let way = Way::Oldest;
            settle(alloc, case, first, Stop { call, kept, way })?;
        }
    }
    Ok(said == Said::Failed)
}

/// Tries the second run after a first fault, call after call until none fails; how many stops that are.
fn try_after(alloc: Global, case: &Case, first: Stop, edits: Option<&[Edit]>) -> Result<u64, Fail> {
    let mut call: u64 = 1;
    for _ in 0..1000u64 {
        if !meets_fault(alloc, case, first, call, edits)? {
            return Ok(call.saturating_mul(6));
        }
        call = call.saturating_add(1);
    }
    Err(Fail::new("a second run without an end"))
}

/// Tries a repair, or a commit of words where there are some, after each of these calls of the plan failed, a write kept
/// and not; how many stops that are.
pub fn try_seconds(
    alloc: Global,
    case: &Case,
    calls: (u64, u64),
    edits: Option<&[Edit]>,
) -> Result<u64, Fail> {
    let mut tried: u64 = 0;
    for call in calls.0..calls.1.saturating_add(1) {
        for kept in [false, true] {
            let way = Way::Oldest;
            let more = try_after(alloc, case, Stop { call, kept, way }, edits)?;
            tried = tried.saturating_add(more);
        }
    }
    Ok(tried)
}
