//! A small MBR disk with four slices: a label that is kept, one that changes, a new one, and none.

ghost use Rattle.std.specs.Prelude.{◌≤◌};

use pt_bsd::{Label, LabelEntry, empty_label, encode_label};
use pt_cases::targets::{Target, TargetKind};
use pt_disks::in_memory::MemDisk;
use pt_planner::places::{LabelTargets, label_targets};
use pt_recover::{Labelled, Labels, Layout, recover};
use pt_sector::{Disk, Lba, Sector};
use std::alloc::Global;
use std::test::Fail;

/// A label of a slice of eight sectors with a partition a of so many sectors.
fn label(size: u32) -> Label {
    let mut label = empty_label(8);
    label.entries[0] = Some(LabelEntry {
        size,
        offset: 2,
        fragment: 0,
        fstype: 7,
        frag: 0,
        cpg: 0,
    });
    label
}

fn put_slice(bytes: &mut Sector<512>, at: usize, start: u8)
    requires { at ≤ 494 }
{
    bytes[at + 4] = 0xA5;
    bytes[at + 8] = start;
    bytes[at + 12] = 8;
}

/// Sector 0 of an MBR with slices of eight sectors at 8, 16, 24 and 32.
fn head() -> Sector<512> {
    let mut bytes = [0; 512];
    put_slice(&mut bytes, 446, 8);
    put_slice(&mut bytes, 462, 16);
    put_slice(&mut bytes, 478, 24);
    put_slice(&mut bytes, 494, 32);
    bytes[510] = 0x55;
    bytes[511] = 0xAA;
    bytes
}

fn put(disk: &mut MemDisk<512>, at: u64, bytes: &Sector<512>) {
    if at < disk.sectors() {
        let _ = disk.write(Lba(at), bytes);
    }
}

/// A disk of 64 sectors with labels in the first two slices; no label place is zero, but for the last.
fn disk(alloc: Global) -> Result<MemDisk<512>, Fail> {
    let mut disk: MemDisk<512> = MemDisk::new(alloc, 64)?;
    put(&mut disk, 0, &head());
    put(&mut disk, 9, &encode_label(&label(1), &[0x22; 512]));
    put(&mut disk, 17, &encode_label(&label(2), &[0x22; 512]));
    put(&mut disk, 25, &[0x22; 512]);
    Ok(disk)
}

/// The answer for the disk's own table with other labels.
fn answer(
    alloc: Global,
    disk: &mut MemDisk<512>,
    labels: Vec<Labelled>,
) -> Result<Option<LabelTargets<512>>, Fail> {
    let Ok(found) = recover(alloc, disk) else {
        return Ok(None);
    };
    let body = found.body.copy(alloc)?;
    let sectors = disk.sectors();
    let wanted = Layout {
        sectors,
        body,
        labels: Labels::new(labels),
    };
    let old = Some(found);
    match label_targets(alloc, disk, &old, &wanted) {
        Ok(answer) => Ok(Some(answer)),
        Err(_) => Ok(None),
    }
}

fn labelled(alloc: Global, labels: &[(u64, Label)]) -> Result<Vec<Labelled>, Fail> {
    let mut all = Vec::new(alloc);
    for (number, label) in labels {
        all.push(Labelled {
            number: *number,
            label: *label,
        })?;
    }
    Ok(all)
}

/// The answer for these labels.
fn answer_for(alloc: Global, labels: &[(u64, Label)]) -> Result<Option<LabelTargets<512>>, Fail> {
    let mut disk = disk(alloc)?;
    answer(alloc, &mut disk, labelled(alloc, labels)?)
}

/// Target `k` of four, where the label of slice 1 is kept, that of slice 2 changes, and slice 3 has a new one.
fn target(alloc: Global, k: usize) -> Result<Option<Target<512>>, Fail> {
    match answer_for(alloc, &[(1, label(1)), (2, label(3)), (3, label(4))])? {
        Some(LabelTargets::Targets(targets)) if targets.len() == 4 && k < targets.len() => {
            Ok(Some(targets[k]))
        }
        _ => Ok(None),
    }
}

/// Whether a target is of this kind and sector, with these bytes.
fn is(target: Option<Target<512>>, kind: TargetKind, at: u64, bytes: &Sector<512>) -> bool {
    match target {
        Some(target) => target.kind == kind && target.at == Lba(at) && target.bytes == *bytes,
        None => false,
    }
}

/// Whether a target stands over these bytes.
fn is_over(target: Option<Target<512>>, under: &Sector<512>) -> bool {
    match target {
        Some(target) => target.under == *under,
        None => false,
    }
}

#[test]
fn a_kept_label(rt: HostRuntime) -> Result<(), Fail> {
    let kept = target(rt.alloc(), 0)?;
    assert!(rt;
        is(
            kept,
            TargetKind::Stays,
            9,
            &encode_label(&label(1), &[0x22; 512])
        )
    );
    Ok(())
}

#[test]
fn a_changed_label(rt: HostRuntime) -> Result<(), Fail> {
    let changed = target(rt.alloc(), 1)?;
    assert!(rt;
        is(
            changed,
            TargetKind::Changes,
            17,
            &encode_label(&label(3), &[0x22; 512])
        )
    );
    assert!(rt; is_over(changed, &encode_label(&label(2), &[0x22; 512])));
    Ok(())
}

#[test]
fn a_new_label(rt: HostRuntime) -> Result<(), Fail> {
    let new = target(rt.alloc(), 2)?;
    assert!(rt;
        is(
            new,
            TargetKind::New,
            25,
            &encode_label(&label(4), &[0; 512])
        )
    );
    assert!(rt; is_over(new, &[0x22; 512]));
    Ok(())
}

#[test]
fn no_label(rt: HostRuntime) -> Result<(), Fail> {
    let none = target(rt.alloc(), 3)?;
    assert!(rt; is(none, TargetKind::Stays, 33, &[0; 512]));
    Ok(())
}

/// The number of the slice that is reported as foreign.
fn foreign(
    alloc: Global,
    disk: &mut MemDisk<512>,
    labels: Vec<Labelled>,
) -> Result<Option<u64>, Fail> {
    match answer(alloc, disk, labels)? {
        Some(LabelTargets::Foreign(number)) => Ok(Some(number)),
        _ => Ok(None),
    }
}

#[test]
fn the_first_foreign_place(rt: HostRuntime) -> Result<(), Fail> {
    let mut disk = disk(rt.alloc())?;
    let mut magic = [0; 512];
    magic[0] = 0x57;
    magic[1] = 0x45;
    magic[2] = 0x56;
    magic[3] = 0x82;
    put(&mut disk, 25, &magic);
    put(&mut disk, 33, &magic);
    let labels = labelled(rt.alloc(), &[(1, label(1)), (2, label(2))])?;
    assert!(rt; foreign(rt.alloc(), &mut disk, labels)? == Some(3));
    Ok(())
}

#[test]
fn labels_out_of_order(rt: HostRuntime) -> Result<(), Fail> {
    let found = answer_for(rt.alloc(), &[(2, label(2)), (1, label(1))])?;
    assert!(rt; matches!(found, Some(LabelTargets::Misplaced)));
    Ok(())
}

#[test]
fn a_label_of_another_length(rt: HostRuntime) -> Result<(), Fail> {
    let found = answer_for(rt.alloc(), &[(1, label(1)), (2, empty_label(7))])?;
    assert!(rt; matches!(found, Some(LabelTargets::Unreadable)));
    Ok(())
}
