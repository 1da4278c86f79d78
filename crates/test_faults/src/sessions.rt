//! Each call of a session of three names fails in turn, and the disk is stopped.

use crate::case::Case;
use crate::device::{Stop, denoted, fail, served, stopped, stops_at};
use pt_edit::edit;
use pt_layout::Layout;
use pt_plan::runs::{Batch, Reply};
use std::alloc::Global;
use std::test::Fail;
use test_samples::{batches, crash_disk};

/// The layouts that the batches lead to, one after the other, from this one on.
fn steps(alloc: Global, batches: &[Batch], old: &Layout) -> Result<Vec<Layout>, Fail> {
    let mut layouts = Vec::new(alloc);
    let mut now = old.copy(alloc)?;
    for batch in batches {
        let next = edit::<512>(alloc, Some(&now), now.sectors, &batch.edits, &[])?;
        layouts.push(now)?;
        now = next;
    }
    layouts.push(now)?;
    Ok(layouts)
}

/// How a session ended: after so many batches that are done.
#[derive(Clone, Copy, Debug, PartialEq, Eq)]
enum Ended {
    Whole(usize),
    /// Then one met a fault.
    Fault(usize),
    /// With replies that it can't have.
    Amiss,
}

/// How a session ended, by its replies.
fn how_it_ended(replies: &[Reply]) -> Ended {
    let mut ended = Ended::Whole(0);
    for reply in replies {
        ended = match (ended, *reply) {
            (Ended::Whole(done), Reply::Done) => Ended::Whole(done.saturating_add(1)),
            (Ended::Whole(done), Reply::Fault(_)) => Ended::Fault(done),
            (Ended::Fault(done), Reply::NotTried) => Ended::Fault(done),
            _ => Ended::Amiss,
        };
    }
    ended
}

/// The place of a layout among these; past the last where it is none of them.
fn place_of(layouts: &[Layout], found: &Layout) -> usize {
    let mut place = layouts.len();
    for k in 0..layouts.len() {
        if found.same(&layouts[k]) {
            place = k;
        }
    }
    place
}

/// Whether a session that ended so may leave this layout of three steps.
fn may_leave(ended: Ended, place: usize) -> bool {
    match ended {
        Ended::Whole(done) => done == 3 && place == 3,
        Ended::Fault(done) => place == done || place == done.saturating_add(1),
        Ended::Amiss => false,
    }
}

/// Tries the stops after this call; whether the session met the fault.
fn meets_fault(
    alloc: Global,
    case: &Case,
    batches: &[Batch],
    layouts: &[Layout],
    call: u64,
) -> Result<bool, Fail> {
    let mut met = false;
    for stop in stops_at(call) {
        let mut disk = crash_disk(alloc, &case.image)?;
        fail(&mut disk, stop);
        let ended = how_it_ended(&served(alloc, &mut disk, batches)?);
        let mut left = stopped(disk, stop);
        let place = place_of(layouts, &denoted(alloc, &mut left)?);
        if !may_leave(ended, place) {
            return Err(Fail::new(format_args!("{stop:?}: {ended:?}, step {place}")));
        }
        met = ended != Ended::Whole(3);
    }
    Ok(met)
}

/// Tries a session of three names, call after call from one on, so many apart, until none fails; how many stops that are.
pub fn try_session(alloc: Global, case: &Case, from: u64, apart: u64) -> Result<u64, Fail> {
    let three = batches(alloc, &["c:1:a", "c:1:b", "c:1:d"])?;
    let layouts = steps(alloc, &three, &case.old)?;
    let mut call = from;
    let mut tried: u64 = 6;
    for _ in 0..1000u64 {
        if !meets_fault(alloc, case, &three, &layouts, call)? {
            return Ok(tried);
        }
        call = call.saturating_add(apart);
        tried = tried.saturating_add(6);
    }
    Err(Fail::new("a session without an end"))
}
