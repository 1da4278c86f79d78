//! The partitions of a layout, each with what stands in its place.

ghost use Rattle.std.specs.Prelude.{◌≡◌, ◌<◌, ◌+◌, ◌^◌, IfSome, None, length, slice_index_or};
ghost use Rattle.pt_members.specs.declared.layout.Body.TheVariants.{Mbr};
ghost use Rattle.pt_members.specs.Members.{number_at, slots, sources, part_sources, row_of, rows, part_rows};

use crate::layout::Body;
use crate::member::Member;
use crate::slots::{numbered_slot, part_slot};
use pt_bsd::{Label, LabelEntry};
use pt_gpt::Entry;
use pt_mbr::{Ebr, Record};

/// What stands in the place of a partition.
#[derive(Clone, Copy)]
pub enum Source {
    /// A used record, of sector 0 or of an extended boot record.
    Record(Record),
    /// A used entry of a GPT.
    Entry(Entry),
    /// An entry of a slice's label.
    Part(LabelEntry),
}

/// A partition with what stands in its place.
#[derive(Clone, Copy)]
pub struct Row {
    pub member: Member,
    pub source: Source,
}

#[tactic(auto, using(crate::proofs::ByPlace::mbr_len, crate::proofs::RowPlaces::source_low, crate::proofs::RowPlaces::source_high))]
fn mbr_source<const B: usize>(
    records: &[Option<Record>; 4],
    chain: &[Ebr],
    k: usize,
) -> Option<Source>
    requires { k < length (slots B (Mbr «records».now chain.now)) }
    ensures { result ≡ slice_index_or (sources (Mbr «records».now chain.now)) k None }
{
    let record = if k < 4 {
        records[k]
    } else {
        chain[k - 4].logical
    };
    Some(Source::Record(record?))
}

// What stands in a place.
#[tactic(auto, using(crate::proofs::RowPlaces::source_entry, crate::proofs::ByPlace::gpt_len))]
fn source_at<const B: usize>(body: &Body, k: usize) -> Option<Source>
    requires { k < length (slots B body.now) }
    ensures { result ≡ slice_index_or (sources body.now) k None }
{
    match body {
        Body::Mbr { records, chain } => mbr_source::<B>(records, chain.as_slice(), k),
        Body::Gpt(table) => Some(Source::Entry(table.entries.get(k)?)),
    }
}

// A partition with what stands in its place.
fn joined(member: Option<Member>, source: Option<Source>) -> Option<Row>
    ensures { result ≡ row_of member source }
{
    Some(Row {
        member: member?,
        source: source?,
    })
}

/// The partition in a place, from 0 on, with its record or entry, where the number of its logical partition is known. None where the
/// place is unused.
#[tactic(auto, using(crate::proofs::RowPlaces::row_there, crate::proofs::RowPlaces::row_unused, crate::proofs::RowPlaces::row_small))]
pub(crate) fn numbered_row<const B: usize>(body: &Body, k: usize, number: u64) -> Option<Row>
    requires within { k < length (slots B body.now) }
    requires number { number ≡ number_at body.now k }
    ensures value { result ≡ slice_index_or (rows B body.now) k None }
    ensures small { IfSome result (λ r. r.member.first < 2 ^ 66) }
{
    let source = source_at::<B>(body, k);
    match source {
        Some(_) => joined(numbered_slot::<B>(body, k, number), source),
        None => None,
    }
}

// The entry of a letter.
#[tactic(auto, using(crate::proofs::RowPlaces::source_part))]
fn part_source(label: &Label, k: usize) -> Option<Source>
    requires within { k < 8 }
    requires counted { length label.now.entries ≡ 8 }
    ensures { result ≡ slice_index_or (part_sources label.now) k None }
{
    Some(Source::Part(label.entries[k]?))
}

// The partition of entry `k`, from 0 for a, of a slice's label, with that entry. None for c, and where the entry isn't
// counted or has no sectors.
#[tactic(auto, using(crate::proofs::RowPlaces::part_row_there))]
pub(crate) fn part_row(label: &Label, slice: &Member, k: usize) -> Option<Row>
    requires small { slice.now.first < 2 ^ 66 }
    requires within { k < 8 }
    requires counted { length label.now.entries ≡ 8 }
    ensures { result ≡ slice_index_or (part_rows label.now slice.now) k None }
{
    joined(part_slot(label, slice, k), part_source(label, k))
}
