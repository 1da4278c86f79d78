//! Targets by hand, over disks of zeros.

use pt_apply::Write;
use pt_cases::targets::{
    Target, TargetKind, first_change, first_owned_change, first_owned_of_kind, in_order, new_writes,
};
use pt_recover::{Body, Ebrs, Labels, Layout, Trace};
use pt_sector::Lba;
use std::alloc::Global;
use std::test::Fail;
use test_samples::record;

const CHANGED: [u8; 512] = [1; 512];

const ZEROS: [u8; 512] = [0; 512];

fn target(at: u64, kind: TargetKind, bytes: [u8; 512]) -> Target<512> {
    Target {
        at: Lba(at),
        bytes,
        under: ZEROS,
        kind,
    }
}

fn changed(at: u64) -> Target<512> {
    target(at, TargetKind::Changes, CHANGED)
}

fn kept(at: u64) -> Target<512> {
    target(at, TargetKind::Stays, ZEROS)
}

/// These sectors, guarded.
pub(crate) fn guarded(alloc: Global, sectors: &[u64]) -> Result<Trace, Fail> {
    let mut trace = Trace::new(alloc);
    for sector in sectors {
        trace.add_one(*sector)?;
    }
    Ok(trace)
}

/// An MBR of so many sectors with one partition, from sector 100 to 199.
pub(crate) fn one_partition(alloc: Global, sectors: u64) -> Layout {
    Layout {
        sectors,
        body: Body::Mbr {
            records: [record(0x83, 100, 100), None, None, None],
            chain: Ebrs::new(Vec::new(alloc)),
        },
        labels: Labels::new(Vec::new(alloc)),
    }
}

fn sectors_of(alloc: Global, writes: &[Write<512>]) -> Result<Vec<u64>, Fail> {
    let mut sectors = Vec::new(alloc);
    for write in writes {
        sectors.push(write.lba.0)?;
    }
    Ok(sectors)
}

fn sorted_sectors(alloc: Global, targets: &[Target<512>]) -> Result<Option<Vec<u64>>, Fail> {
    match in_order(Vec::from_slice(alloc, targets)?) {
        None => Ok(None),
        Some(sorted) => {
            let mut sectors = Vec::new(alloc);
            for target in &sorted {
                sectors.push(target.at.0)?;
            }
            Ok(Some(sectors))
        }
    }
}

/// The sectors of the new writes, where these are guarded.
fn fresh(alloc: Global, targets: &[Target<512>], sectors: &[u64]) -> Result<Vec<u64>, Fail> {
    match in_order(Vec::from_slice(alloc, targets)?) {
        None => Ok(Vec::new(alloc)),
        Some(sorted) => {
            let writes = new_writes(alloc, &sorted, &guarded(alloc, sectors)?)?;
            sectors_of(alloc, &writes)
        }
    }
}

#[test]
fn two_of_one_sector_have_no_order(rt: HostRuntime) -> Result<(), Fail> {
    let sectors = sorted_sectors(rt.alloc(), &[changed(64), kept(0), kept(64)])?;
    assert!(rt; sectors.is_none());
    Ok(())
}

#[test]
fn new_labels_that_are_not_read(rt: HostRuntime) -> Result<(), Fail> {
    let targets = [
        target(64, TargetKind::New, ZEROS),
        target(128, TargetKind::New, ZEROS),
        target(192, TargetKind::New, CHANGED),
        changed(256),
    ];
    let sectors = fresh(rt.alloc(), &targets, &[64, 192])?;
    let wanted = [128, 192];
    assert!(rt; sectors.as_slice() == wanted.as_slice());
    Ok(())
}

#[test]
fn labels_that_change(rt: HostRuntime) {
    assert!(rt; first_change(&[kept(0), changed(1), changed(2)]) == Some(Lba(1)));
}

#[test]
fn sectors_that_a_partition_owns(rt: HostRuntime) {
    let old = Some(one_partition(rt.alloc(), 1024));
    let targets = [kept(100), changed(99), changed(199), changed(150)];
    assert!(rt; first_owned_change(&old, &targets) == Some(Lba(199)));
    assert!(rt; first_owned_change(&old, &[kept(100), changed(200)]) == None);
    assert!(rt; first_owned_change(&None, &targets) == None);
    assert!(rt; first_owned_of_kind(&old, &targets, TargetKind::Stays) == Some(Lba(100)));
    assert!(rt; first_owned_of_kind(&old, &targets, TargetKind::New) == None);
}
