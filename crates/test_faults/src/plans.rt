//! Each call of a plan fails in turn, and the disk is stopped.

use crate::case::{Case, Left};
use crate::device::{Stop, stops_at};
use pt_sector::Fault;
use std::alloc::Global;
use std::test::Fail;

/// What `apply` answered where it was stopped so, and which layout the disk denotes then.
fn tried(alloc: Global, case: &Case, stop: Stop) -> Result<(Result<(), Fault>, Left), Fail> {
    let (disk, answer) = case.applied(alloc, stop)?;
    let left = case.left_by(alloc, disk, stop)?;
    Ok((answer, left))
}

fn wrong(stop: Stop, answer: Result<(), Fault>, left: Left) -> Fail {
    Fail::new(format_args!("{stop:?}: {answer:?}, {left:?}"))
}

/// Tries the stops after this call, of which `apply` is to answer so.
fn try_at(alloc: Global, case: &Case, call: u64, expected: Result<(), Fault>) -> Result<u64, Fail> {
    for stop in stops_at(call) {
        let (answer, left) = tried(alloc, case, stop)?;
        if answer != expected || !case.turn.allows(call, left) {
            return Err(wrong(stop, answer, left));
        }
    }
    Ok(6)
}

/// Tries the stops after each call of a plan of so many, and after none; how many they are.
pub fn try_plan(alloc: Global, case: &Case, calls: usize) -> Result<u64, Fail> {
    let faults = case.faults(alloc)?;
    if faults.len() != calls {
        return Err(Fail::new(format_args!("{} calls", faults.len())));
    }
    let mut tried: u64 = 0;
    let mut call = 1;
    for fault in &faults {
        tried = tried.saturating_add(try_at(alloc, case, call, Err(*fault))?);
        call = call.saturating_add(1);
    }
    Ok(tried.saturating_add(try_at(alloc, case, call, Ok(()))?))
}
