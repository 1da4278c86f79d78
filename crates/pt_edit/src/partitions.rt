//! The partitions of an MBR in the order of their numbers.
//!
//! They are read off the rows of `pt_members` with sectors of 512 bytes. The size of sectors decides only which partitions are
//! slices, and that doesn't matter here.

ghost use Rattle.std.specs.Prelude.{◌≡◌, ◌<◌, ◌++◌, ◌^◌, IfOk, OnOk, length, option_to_list};
ghost use Rattle.pt_members.specs.Members.{slots};
ghost use Rattle.pt_members.specs.Tables.{HasFour};
ghost use Rattle.pt_edit.specs.Entries.{kept_of, partitions};
ghost use Rattle.pt_edit.specs.Converted.{guids_taken};

use pt_mbr::{Ebr, Record};
use pt_members::{Body, Kind, Layout, Row, Source};
use std::alloc::{AllocError, Global};

/// A partition of an MBR, primary or logical, but not the extended one.
///
/// Its sectors are the disk's own, and wide, since those of a record may lie past 2^64.
#[derive(Clone, Copy, Debug, PartialEq, Eq)]
pub struct Partition {
    /// From 1 to 4 the place of its record, from 5 on its place among the logical partitions.
    pub number: u64,
    /// Its type in the record (OSType).
    pub kind: u8,
    pub first: u128,
    /// Its last sector; the one before the first where the record has no sector.
    pub last: u128,
}

// The partition that a row is: none where it is the extended one, or the entry of a GPT or of a label.
fn kept(row: &Row) -> Option<Partition>
    ensures { option_to_list result ≡ kept_of row.now }
{
    let member = &row.member;
    match row.source {
        Source::Record(record) => {
            if member.kind == Kind::Extended {
                return None;
            }
            Some(Partition {
                number: member.path.number,
                kind: record.kind,
                first: member.first,
                last: member.last,
            })
        }
        Source::Entry(_) | Source::Part(_) => None,
    }
}

fn push(partitions: &mut Vec<Partition>, partition: Option<Partition>) -> Result<(), AllocError>
    ensures { OnOk result (partitions.new.items ≡ partitions.old.items ++ option_to_list partition) }
{
    if let Some(partition) = partition {
        partitions.push(partition)?;
    }
    Ok(())
}

// What types say of an MBR: it has four records, and fewer extended boot records than can be counted.
fn mbr_bounds(records: &[Option<Record>; 4], chain: &[Ebr])
    ensures four { length «records».now ≡ 4 }
    ensures few { length chain.now < 2 ^ 62 }
{
    let _count = records.len() + chain.len();
}

// What they say of a body, which contracts see without types: an MBR has four records, and there are fewer places than can be counted.
#[tactic(auto, using(pt_members::proofs::ByPlace::mbr_len, pt_members::proofs::ByPlace::gpt_len))]
fn bounds(body: &Body)
    ensures four { HasFour body.now }
    ensures few { length (slots 512 body.now) < 2 ^ 63 }
{
    match body {
        Body::Mbr { records, chain } => mbr_bounds(records, chain.as_slice()),
        Body::Gpt(table) => {
            let _count = table.entries.as_slice().len();
        }
    }
}

// All of them, but the extended partition.
pub(crate) fn partitions_of(alloc: Global, body: &Body) -> Result<Vec<Partition>, AllocError>
    ensures ok { IfOk result (λ v. v.items ≡ partitions body.now) }
    ensures four { HasFour body.now }
{
    bounds(body);
    let mut partitions = Vec::new(alloc);
    for row in body.rows::<512>() {
        push(&mut partitions, kept(&row))?;
    }
    Ok(partitions)
}

/// How many fresh GUIDs the layout takes as it becomes a GPT: one for the disk, and one for each partition, but not for the extended
/// one.
#[tactic(auto, using(crate::proofs::Counts::partitions_few))]
pub fn guids_for(layout: &Layout) -> usize
    ensures { result ≡ guids_taken layout.now }
{
    bounds(&layout.body);
    let mut count = 1;
    for row in layout.body.rows::<512>() {
        if kept(&row).is_some() {
            count += 1;
        }
    }
    count
}
