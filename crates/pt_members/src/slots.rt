//! The members of a layout in place: its records or entries, its logical partitions, and the entries of its labels.

ghost use Rattle.std.specs.Prelude.{◌≡◌, ◌+◌, ◌<◌, ◌≤◌, ◌^◌, ◌↔◌, ℕ, IsTrue, length, get_or, take, count_by, is_some, Some, None};
ghost use Rattle.std.specs.Prelude.{option_map, IfSome, slice_index_or};
ghost use Rattle.std.specs.List.Sorted.{IsNonDecreasingBy};
ghost use Rattle.pt_members.specs.Members.{records_as, entries_as, logicals_as, slots, tops, record_kind, logical_kind, entry_kind};
ghost use Rattle.pt_members.specs.Members.{label_of, part_of, parts_in, sized_member, number_path, record_member, logical_member};
ghost use Rattle.pt_members.specs.Members.{is_slice_kind, entry_member, used_before, logical_at, number_at};
ghost use Rattle.pt_members.specs.declared.layout.Body.TheVariants.{Mbr};
ghost use Rattle.pt_members.specs.Tables.{HasFour};

use crate::layout::{Body, Labelled, Labels};
use crate::member::{Kind, Member};
use pt_bsd::{Label, LabelEntry, RAW};
use pt_gpt::Entry;
use pt_guid::Guid;
use pt_mbr::{Ebr, FIRST_LOGICAL, Record, SLICE_KIND, is_extended_kind};
use pt_path::Path;
use pt_sector::Lba;

/// How many entries a label has, those that it doesn't count among them.
pub const LETTERS: usize = 8;

/// The type of slices in a GPT as a disk stores it: 516E7CB4-6ECF-11D6-8FF8-00022D09712B, of type code A500.
const SLICE_TYPE: Guid = Guid([
    0xB4, 0x7C, 0x6E, 0x51, 0xCF, 0x6E, 0xD6, 0x11, 0x8F, 0xF8, 0x00, 0x02, 0x2D, 0x09, 0x71, 0x2B,
]);

/// Whether a GPT entry of this type is a slice: its type code is A500.
pub fn is_slice_type(kind: &Guid) -> bool
    ensures { result ≡ is_slice_kind kind.now.0 }
{
    *kind == SLICE_TYPE
}

fn record_kind_of<const B: usize>(kind: u8) -> Kind
    ensures { result ≡ record_kind B kind }
{
    if B == 512 && kind == SLICE_KIND {
        Kind::Slice
    } else if is_extended_kind(kind) {
        Kind::Extended
    } else {
        Kind::Leaf
    }
}

fn logical_kind_of<const B: usize>(kind: u8) -> Kind
    ensures { result ≡ logical_kind B kind }
{
    if B == 512 && kind == SLICE_KIND {
        Kind::Slice
    } else {
        Kind::Leaf
    }
}

// A member from a start and a size relative to `at`.
fn sized(path: Path, kind: Kind, at: u64, start: u32, size: u32) -> Member
    ensures value { result ≡ sized_member path kind (at + start) size }
    ensures small { result.first < 2 ^ 66 }
{
    let first = u128::from(at) + u128::from(start);
    Member {
        path,
        kind,
        first,
        last: (first + u128::from(size)).saturating_sub(1),
    }
}

// The path of a partition without a letter.
fn numbered(number: u64) -> Path
    ensures { result ≡ number_path number }
{
    Path {
        number,
        letter: None,
    }
}

fn record_of<const B: usize>(number: u64, r: &Record) -> Member
    ensures value { result ≡ record_member B number r.now }
    ensures small { result.first < 2 ^ 66 }
{
    sized(
        numbered(number),
        record_kind_of::<B>(r.kind),
        0,
        r.start,
        r.size,
    )
}

fn logical_of<const B: usize>(number: u64, at: Lba, r: &Record) -> Member
    ensures value { result ≡ logical_member B number at.0 r.now }
    ensures small { result.first < 2 ^ 66 }
{
    sized(
        numbered(number),
        logical_kind_of::<B>(r.kind),
        at.0,
        r.start,
        r.size,
    )
}

fn entry_kind_of<const B: usize>(kind: &Guid) -> Kind
    ensures { result ≡ entry_kind B kind.now.0 }
{
    if B == 512 && is_slice_type(kind) {
        Kind::Slice
    } else {
        Kind::Leaf
    }
}

pub(crate) fn entry_of<const B: usize>(number: u64, e: &Entry) -> Member
    ensures value { result ≡ entry_member B number e.now }
    ensures small { result.first < 2 ^ 66 }
{
    Member {
        path: numbered(number),
        kind: entry_kind_of::<B>(&e.kind),
        first: u128::from(e.first),
        last: u128::from(e.last),
    }
}

/// The member of record `k`, from 0 on.
pub fn record_slot<const B: usize>(records: &[Option<Record>; 4], k: usize) -> Option<Member>
    requires { k < 4 }
    ensures value { result ≡ option_map (record_member B (1 + k)) (slice_index_or records.now k None) }
    ensures small { IfSome result (λ m. m.first < 2 ^ 66) }
{
    match &records[k] {
        Some(r) => Some(record_of::<B>(1 + k as u64, r)),
        None => None,
    }
}

/// The member of entry `k`, from 0 on.
pub fn entry_slot<const B: usize>(entries: &[Option<Entry>], k: usize) -> Option<Member>
    requires { k < length entries.now }
    ensures value { result ≡ option_map (entry_member B (1 + k)) (slice_index_or entries.now k None) }
    ensures small { IfSome result (λ m. m.first < 2 ^ 66) }
{
    match &entries[k] {
        Some(e) => Some(entry_of::<B>(1 + k as u64, e)),
        None => None,
    }
}

/// The number of the logical partition in extended boot record `k`, from 0 on, or of one that comes in front of it.
pub fn logical_number(chain: &[Ebr], k: usize) -> u64
    requires { k ≤ length chain.now }
    ensures { result ≡ 5 + used_before k chain.now }
{
    let mut number = FIRST_LOGICAL;
    for i in 0..k {
        if chain[i].logical.is_some() {
            number += 1;
        }
    }
    number
}

/// The logical partition of extended boot record `k`, from 0 on, where the number is known that it has if it is there.
pub fn numbered_logical<const B: usize>(chain: &[Ebr], k: usize, number: u64) -> Option<Member>
    requires within { k < length chain.now }
    requires number { number ≡ 5 + used_before k chain.now }
    ensures value { result ≡ logical_at B k chain.now }
    ensures small { IfSome result (λ m. m.first < 2 ^ 66) }
{
    let ebr = chain[k];
    match &ebr.logical {
        Some(r) => Some(logical_of::<B>(number, ebr.at, r)),
        None => None,
    }
}

#[tactic(auto, using(crate::proofs::ByPlace::mbr_len))]
fn mbr_count<const B: usize>(records: &[Option<Record>; 4], chain: &[Ebr]) -> usize
    ensures value { result ≡ length (slots B (Mbr «records».now chain.now)) }
    ensures four { length «records».now ≡ 4 }
{
    4 + chain.len()
}

#[tactic(auto, using(crate::proofs::ByPlace::mbr_len, crate::proofs::ByPlace::mbr_low, crate::proofs::ByPlace::mbr_high))]
fn numbered_mbr_slot<const B: usize>(
    records: &[Option<Record>; 4],
    chain: &[Ebr],
    k: usize,
    number: u64,
) -> Option<Member>
    requires within { k < length (slots B (Mbr «records».now chain.now)) }
    requires number { number ≡ number_at (Mbr «records».now chain.now) k }
    ensures value { result ≡ slice_index_or (slots B (Mbr «records».now chain.now)) k None }
    ensures small { IfSome result (λ m. m.first < 2 ^ 66) }
{
    if k < 4 {
        record_slot::<B>(records, k)
    } else {
        numbered_logical::<B>(chain, k - 4, number)
    }
}

/// The number of the next extended boot record's logical partition, where that of this one's is known.
pub fn number_behind(chain: &[Ebr], k: usize, number: u64) -> u64
    requires within { k < length chain.now }
    requires number { number ≡ 5 + used_before k chain.now }
    ensures { result ≡ 5 + used_before (k + 1) chain.now }
{
    if chain[k].logical.is_some() {
        number + 1
    } else {
        number
    }
}

#[tactic(auto, using(crate::proofs::ByPlace::mbr_len))]
fn next_mbr_number<const B: usize>(
    records: &[Option<Record>; 4],
    chain: &[Ebr],
    k: usize,
    number: u64,
) -> u64
    requires within { k < length (slots B (Mbr «records».now chain.now)) }
    requires number { number ≡ number_at (Mbr «records».now chain.now) k }
    ensures { result ≡ number_at (Mbr «records».now chain.now) (k + 1) }
{
    if k < records.len() {
        number
    } else {
        number_behind(chain, k - 4, number)
    }
}

// How many places for members a table has, four of them for the records of an MBR.
#[tactic(auto, using(crate::proofs::ByPlace::gpt_len))]
pub(crate) fn count_slots<const B: usize>(body: &Body) -> usize
    ensures value { result ≡ length (slots B body.now) }
    ensures four { HasFour body.now }
{
    match body {
        Body::Mbr { records, chain } => mbr_count::<B>(records, chain.as_slice()),
        Body::Gpt(table) => table.entries.as_slice().len(),
    }
}

/// How many places for members a table has: its records or entries, then its extended boot records.
pub(crate) fn slot_count<const B: usize>(body: &Body) -> usize
    ensures { result ≡ length (slots B body.now) }
{
    count_slots::<B>(body)
}

/// The number of the next place's logical partition, where that of this place's is known. That of the first place is
/// `FIRST_LOGICAL`.
pub(crate) fn next_number<const B: usize>(body: &Body, k: usize, number: u64) -> u64
    requires within { k < length (slots B body.now) }
    requires number { number ≡ number_at body.now k }
    ensures { result ≡ number_at body.now (k + 1) }
{
    match body {
        Body::Mbr { records, chain } => {
            next_mbr_number::<B>(records, chain.as_slice(), k, number)
        }
        Body::Gpt(_) => number,
    }
}

/// The member in a place, from 0 on: the records or entries first, then the chain's. None where that is unused. The number of its
/// logical partition has to be known, so that a walk through the places doesn't count those before each.
#[tactic(auto, using(crate::proofs::ByPlace::gpt_at, crate::proofs::ByPlace::gpt_len))]
pub(crate) fn numbered_slot<const B: usize>(body: &Body, k: usize, number: u64) -> Option<Member>
    requires within { k < length (slots B body.now) }
    requires number { number ≡ number_at body.now k }
    ensures value { result ≡ slice_index_or (slots B body.now) k None }
    ensures small { IfSome result (λ m. m.first < 2 ^ 66) }
{
    match body {
        Body::Mbr { records, chain } => {
            numbered_mbr_slot::<B>(records, chain.as_slice(), k, number)
        }
        Body::Gpt(table) => entry_slot::<B>(table.entries.as_slice(), k),
    }
}

#[tactic(auto, using(crate::proofs::ByPlace::label_here, crate::proofs::ByPlace::label_next, crate::proofs::ByPlace::label_end))]
fn label_in(labels: &[Labelled], number: u64) -> Option<Label>
    ensures { result ≡ label_of labels.now number }
{
    for k in 0..labels.len() {
        if labels[k].number == number {
            return Some(labels[k].label);
        }
    }
    None
}

// The same, where the slices' numbers ascend.
fn label_among(labels: &[Labelled], number: u64) -> Option<Label>
    requires { IsNonDecreasingBy (λ l. l.number) labels.now }
    ensures { result ≡ label_of labels.now number }
{
    let at = labels.partition_point(|it| it.number < number);
    match labels.get(at) {
        Some(it) => {
            if it.number == number {
                Some(it.label)
            } else {
                None
            }
        }
        None => None,
    }
}

/// The label of the slice of a number.
pub fn find_label(labels: &Labels, number: u64) -> Option<Label>
    ensures { result ≡ label_of labels.now number }
{
    if labels.ascend() {
        return label_among(labels.as_slice(), number);
    }
    label_in(labels.as_slice(), number)
}

// The partition of an entry of a slice's label.
fn part(label: &Label, slice: &Member, k: usize, e: &LabelEntry) -> Option<Member>
    requires small { slice.now.first < 2 ^ 66 }
    requires within { k < 8 }
    ensures { result ≡ part_of label.now slice.now k (Some e.now) }
{
    if k == RAW || e.size == 0 {
        return None;
    }
    let first = label.entry_first(slice.first, e);
    Some(Member {
        path: Path {
            number: slice.path.number,
            letter: Some(k as u8),
        },
        kind: Kind::Leaf,
        first,
        last: (first + u128::from(e.size)).saturating_sub(1),
    })
}

/// The partition of entry `k`, from 0 for a, of a slice's label. None for c, and where the entry isn't counted or has
/// no sectors.
#[tactic(auto, using(crate::proofs::ByPlace::part_at))]
pub fn part_slot(label: &Label, slice: &Member, k: usize) -> Option<Member>
    requires small { slice.now.first < 2 ^ 66 }
    requires within { k < 8 }
    requires counted { length label.now.entries ≡ 8 }
    ensures { result ≡ slice_index_or (parts_in (Some label.now) slice.now) k None }
{
    match &label.entries[k] {
        Some(e) => part(label, slice, k, e),
        None => None,
    }
}

// How many places the records or entries have.
#[tactic(auto, using(crate::proofs::ByPlace::mbr_tops, crate::proofs::ByPlace::gpt_tops, crate::proofs::ByPlace::tops_first))]
pub fn top_count<const B: usize>(body: &Body) -> usize
    ensures value { result ≡ length (tops B body.now) }
    ensures within { result ≤ length (slots B body.now) }
{
    match body {
        Body::Mbr { records, .. } => records.as_slice().len(),
        Body::Gpt(table) => table.entries.as_slice().len(),
    }
}
