//! Turns of targets by hand, over a disk of zeros with one partition.

use crate::plans::targets::{guarded, one_partition};
use pt_apply::{Plan, Write};
use pt_cases::targets::{PlanError, Target, TargetKind};
use pt_planner::phases::{one_label, within_mbr};
use pt_sector::Lba;
use std::alloc::Global;
use std::test::Fail;

/// What a sector holds that changes.
const CHANGED: [u8; 512] = [1; 512];

const ZEROS: [u8; 512] = [0; 512];

fn changed(at: u64) -> Target<512> {
    Target {
        at: Lba(at),
        bytes: CHANGED,
        under: ZEROS,
        kind: TargetKind::Changes,
    }
}

fn kept(at: u64) -> Target<512> {
    Target {
        at: Lba(at),
        bytes: ZEROS,
        under: ZEROS,
        kind: TargetKind::Stays,
    }
}

/// The answer for these targets, where sectors 0, 63 and 65 are guarded.
fn turned(
    alloc: Global,
    heads: &[Target<512>],
    places: &[Target<512>],
) -> Result<Result<Plan<512>, PlanError>, Fail> {
    let heads = Vec::from_slice(alloc, heads)?;
    let places = Vec::from_slice(alloc, places)?;
    let guarded = guarded(alloc, &[0, 63, 65])?;
    let old = Some(one_partition(alloc, 1024));
    Ok(within_mbr(alloc, &old, &guarded, heads, places))
}

/// What they are refused with.
fn refused(
    alloc: Global,
    heads: &[Target<512>],
    places: &[Target<512>],
) -> Result<Option<PlanError>, Fail> {
    Ok(turned(alloc, heads, places)?.err())
}

/// The answer for these label places of a disk whose copies are whole.
fn labelled(alloc: Global, places: &[Target<512>]) -> Result<Result<Plan<512>, PlanError>, Fail> {
    let places = Vec::from_slice(alloc, places)?;
    Ok(one_label(alloc, &Some(one_partition(alloc, 1024)), false, places))
}

/// Whether these are the sectors that a phase writes with all bytes changed.
fn phase_writes(phase: &[Write<512>], sectors: &[u64]) -> bool {
    let mut k = 0;
    for write in phase {
        if write.bytes == CHANGED {
            if k >= sectors.len() || sectors[k] != write.lba.0 {
                return false;
            }
            k += 1;
        }
    }
    k == sectors.len()
}

/// Whether the phases of a plan write just these sectors so.
fn writes(plan: &Plan<512>, wanted: &[&[u64]]) -> bool {
    for k in 0..plan.phases.len() {
        if k >= wanted.len() || !phase_writes(&plan.phases[k], wanted[k]) {
            return false;
        }
    }
    plan.phases.len() == wanted.len()
}

#[test]
fn quiet_sectors_come_first(rt: HostRuntime) -> Result<(), Fail> {
    let heads = [changed(0), kept(63), changed(70)];
    let plan = turned(rt.alloc(), &heads, &[kept(65), changed(66)])??;
    assert!(rt; writes(&plan, &[&[66, 70], &[0]]));
    Ok(())
}

#[test]
fn not_one_guarded_sector_is_no_switch(rt: HostRuntime) -> Result<(), Fail> {
    let none = refused(rt.alloc(), &[kept(0), changed(70)], &[kept(65)])?;
    assert!(rt; none == Some(PlanError::NotOneSwitch));
    let shared = refused(rt.alloc(), &[changed(0), changed(70)], &[kept(70)])?;
    assert!(rt; shared == Some(PlanError::NotOneSwitch));
    Ok(())
}

#[test]
fn one_label_is_one_write(rt: HostRuntime) -> Result<(), Fail> {
    let plan = labelled(rt.alloc(), &[kept(65), changed(64), kept(66)])??;
    assert!(rt; writes(&plan, &[&[64]]));
    Ok(())
}

#[test]
fn one_label_wants_one_change(rt: HostRuntime) -> Result<(), Fail> {
    let none = labelled(rt.alloc(), &[kept(65), kept(66)])?;
    assert!(rt; none.err() == Some(PlanError::NotOneSwitch));
    Ok(())
}
