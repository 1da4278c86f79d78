//! When words with a letter are refused, as docs/commands.md tells it, and the list of labels.

use pt_bsd::{Label, LabelEntry, empty_label};
use pt_edit::labels::{add_label, delete_part, new_part};
use pt_layout::{Body, Ebrs, Labelled, Labels, Layout};
use pt_mbr::Record;
use pt_words::{Asked, Code, End, Refusal};
use std::alloc::Global;
use std::test::Fail;

const A: u8 = 0;

fn labels_of(alloc: Global, label: Option<Label>) -> Result<Labels, Fail> {
    let mut labels = Vec::new(alloc);
    if let Some(label) = label {
        labels.push(Labelled { number: 1, label })?;
    }
    Ok(Labels::new(labels))
}

/// A disk of 8,192 sectors whose first record is a slice from 2048 of this size, with this label.
fn mbr(alloc: Global, size: u32, label: Option<Label>) -> Result<Layout, Fail> {
    let slice = Record {
        boot: 0,
        start_chs: [0; 3],
        kind: 0xa5,
        end_chs: [0; 3],
        start: 2048,
        size,
    };
    Ok(Layout {
        sectors: 8192,
        body: Body::Mbr {
            records: [Some(slice), None, None, None],
            chain: Ebrs::new(Vec::new(alloc)),
        },
        labels: labels_of(alloc, label)?,
    })
}

/// The label with these entries a and b.
fn with_parts(mut label: Label, a: LabelEntry, b: LabelEntry) -> Label {
    label.entries[0] = Some(a);
    label.entries[1] = Some(b);
    label
}

fn part(size: u32, offset: u32) -> LabelEntry {
    LabelEntry {
        size,
        offset,
        fragment: 0,
        fstype: 7,
        frag: 0,
        cpg: 0,
    }
}

const UNUSED: LabelEntry = LabelEntry {
    size: 0,
    offset: 0,
    fragment: 0,
    fstype: 0,
    frag: 0,
    cpg: 0,
};

/// A partition of slice 1's label at alignment 1.
fn asked(start: u64, end: End, code: Option<Code>) -> Asked {
    Asked {
        number: 1,
        alignment: 1,
        start,
        end,
        code,
    }
}

/// A slice of 4096 sectors whose label has one partition.
fn with_one(alloc: Global) -> Result<Layout, Fail> {
    let label = with_parts(empty_label(4096), part(2000, 16), UNUSED);
    mbr(alloc, 4096, Some(label))
}

#[test]
fn a_letter_past_the_last(rt: HostRuntime) -> Result<(), Fail> {
    let asked = asked(4064, End::Block, None);
    let made = new_part::<512>(rt.alloc(), with_one(rt.alloc())?, 8, &asked);
    assert!(rt; made.err() == Some(Refusal::NoSuchPartition));
    Ok(())
}

#[test]
fn no_deletion_in_sectors_of_4096_bytes(rt: HostRuntime) -> Result<(), Fail> {
    assert!(rt; delete_part::<4096>(with_one(rt.alloc())?, 1, A).is_err());
    Ok(())
}

/// The empty labels of slices of these numbers.
fn numbered(alloc: Global, numbers: &[u64]) -> Result<Labels, Fail> {
    let mut labels = Vec::new(alloc);
    for number in numbers {
        labels.push(Labelled {
            number: *number,
            label: empty_label(20),
        })?;
    }
    Ok(Labels::new(labels))
}

/// Whether they are those of slices of these numbers.
fn are(alloc: Global, labels: Labels, numbers: &[u64]) -> Result<bool, Fail> {
    Ok(labels.same(&numbered(alloc, numbers)?))
}

#[test]
fn a_label_is_added(rt: HostRuntime) -> Result<(), Fail> {
    let alloc = rt.alloc();
    let made = add_label(alloc, numbered(alloc, &[1, 5, 7])?, 6, &empty_label(20))?;
    assert!(rt; are(alloc, made, &[1, 5, 6, 7])?);
    Ok(())
}
