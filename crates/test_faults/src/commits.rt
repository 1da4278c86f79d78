//! Each call of a whole commit fails in turn, and the disk is stopped.

use crate::case::{Case, Left};
use crate::device::{Stop, Way, committed, fail, stops_at};
use pt_plan::CommitError;
use pt_sector::Fault;
use std::alloc::Global;
use std::test::Fail;
use test_samples::crash_disk;

/// What a commit answers of which a call fails, and what the stopped disk denotes.
fn outcome(
    alloc: Global,
    case: &Case,
    stop: Stop,
) -> Result<(Result<(), CommitError>, Left), Fail> {
    let mut disk = crash_disk(alloc, &case.image)?;
    fail(&mut disk, stop);
    let answer = committed(alloc, &mut disk, &case.edits);
    let left = case.left_by(alloc, disk, stop)?;
    Ok((answer, left))
}

/// Whether a commit may answer this where a call before its first write failed.
fn is_early(call: u64, answer: Result<(), CommitError>) -> bool {
    match answer {
        Err(CommitError::Device(Fault::Flush)) => call == 1,
        Err(CommitError::Device(Fault::Read(_))) => call > 1,
        _ => false,
    }
}

/// The call of a commit's first write. Each one before it is reported as what it is, and leaves the old layout.
fn first_write(alloc: Global, case: &Case) -> Result<u64, Fail> {
    let mut call = 1;
    for _ in 0..1000u64 {
        let stop = Stop {
            call,
            kept: true,
            way: Way::Newest,
        };
        let (answer, left) = outcome(alloc, case, stop)?;
        if matches!(answer, Err(CommitError::Device(Fault::Write(_)))) {
            return Ok(call);
        }
        if left != Left::Old || !is_early(call, answer) {
            return Err(Fail::new(format_args!("{stop:?}: {answer:?}, {left:?}")));
        }
        call = call.saturating_add(1);
    }
    Err(Fail::new("no write"))
}

/// Tries the stops after this call, which has this place in the plan, and of which the commit is to answer so.
fn try_at(
    alloc: Global,
    case: &Case,
    call: u64,
    place: u64,
    expected: Result<(), CommitError>,
) -> Result<u64, Fail> {
    for stop in stops_at(call) {
        let (answer, left) = outcome(alloc, case, stop)?;
        if answer != expected || !case.turn.allows(place, left) {
            return Err(Fail::new(format_args!("{stop:?}: {answer:?}, {left:?}")));
        }
    }
    Ok(6)
}

/// Tries the stops after each call of a commit, until none fails; how many they are.
pub fn try_commit(alloc: Global, case: &Case) -> Result<u64, Fail> {
    let mut call = first_write(alloc, case)?;
    let mut tried = call.saturating_sub(1);
    let mut place = 1;
    for fault in &case.faults(alloc)? {
        let expected = Err(CommitError::Device(*fault));
        tried = tried.saturating_add(try_at(alloc, case, call, place, expected)?);
        call = call.saturating_add(1);
        place = place.saturating_add(1);
    }
    Ok(tried.saturating_add(try_at(alloc, case, call, place, Ok(()))?))
}
