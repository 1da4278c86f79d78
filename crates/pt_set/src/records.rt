//! The records that the partitions of a draft of an MBR become.

ghost use Rattle.std.specs.Prelude.{◌≡◌, ◌<◌, ◌≤◌, ◌^◌, ◌++◌, IfOk, IfErr, IfSome, OnOk, Ok, Err, length};
ghost use Rattle.pt_sector.specs.Sectors.{IsSectorSize};
ghost use Rattle.pt_mbr.specs.Records.{is_extended as is_extended_spec};
ghost use Rattle.pt_set.specs.Records.{AreStaged, IsRecord, IsStaged, first_stage as first_spec, foreign_logical as foreign_logical_spec};
ghost use Rattle.pt_set.specs.Records.{foreign_record as foreign_record_spec, has_number as has_number_spec, is_open as is_open_spec};
ghost use Rattle.pt_set.specs.Records.{is_past_record as is_past_spec, is_unused as is_unused_spec, known_of as known_spec};
ghost use Rattle.pt_set.specs.Records.{count_lower as lower_spec, later_of as later_spec, logical_number as logical_spec};
ghost use Rattle.pt_set.specs.Records.{lowest_of_four as lowest_spec, new_extended as new_extended_spec, record_at as record_at_spec};
ghost use Rattle.pt_set.specs.Records.{record_kind as kind_spec, record_label as label_spec, record_number as number_spec};
ghost use Rattle.pt_set.specs.Records.{record_with as record_spec, says_last as says_last_spec, stated_as, stated_records as stated_spec};
ghost use Rattle.pt_set.specs.Records.{with_later, with_record};
ghost use Rattle.pt_set.specs.inner.Made.{Tells};
ghost use Rattle.pt_set.specs.inner.Staged.{mbr_frame, stage_of};

use crate::entries::{gives, label_as, put_label, refuse};
use crate::faults::at;
use crate::past::{Past, Was, end_chs_of, kept, start_chs_of, was_record, was_slice};
use crate::places::{Bounds, length_of, place_in, push_stated};
use pt_bsd::Label;
use pt_drafts::{DraftError, Extent, Key, NamedType, PartDraft, TextFault};
use pt_edit::records::is_slice_kind;
use pt_edit::space::Run;
use pt_mbr::{FIRST_LOGICAL, Record, is_extended_kind};
use pt_members::{Labels, find_label};
use std::alloc::{AllocError, Global};

/// The type of a partition whose text has none: a Linux filesystem.
const DEFAULT_KIND: u8 = 0x83;

/// The last sector, and the highest number of sectors, that a record can say.
const MOST: u128 = 0xFFFF_FFFF;

/// What the partitions of a draft of an MBR are made by.
#[derive(Clone, Copy)]
pub(crate) struct MbrBasis<'a> {
    pub(crate) sectors: u64,
    pub(crate) past: Past<'a>,
    pub(crate) parts: &'a [PartDraft],
}

/// The number and the type of a new record.
#[derive(Clone, Copy)]
pub(crate) struct Known {
    pub(crate) number: u64,
    pub(crate) kind: u8,
}

/// A logical partition of the text, which is made after the records.
#[derive(Clone, Copy)]
pub(crate) struct Later {
    /// Its place in the list, from 0 on.
    pub(crate) place: u32,
    /// The number that the text gives it.
    pub(crate) number: u64,
    pub(crate) kind: u8,
    pub(crate) part: PartDraft,
}

/// What is made of the first partitions of a draft.
#[derive(Drop)]
pub(crate) struct Staged {
    pub(crate) records: [Option<Record>; 4],
    pub(crate) labels: Labels,
    /// The sectors among records that aren't free.
    pub(crate) runs: Vec<Run>,
    /// The extended one of the records.
    pub(crate) extended: Option<Record>,
    /// By ascending number.
    pub(crate) later: Vec<Later>,
}

// ---- what a text says

fn says_last(extent: Option<Extent>) -> bool
    ensures { result ≡ says_last_spec extent }
{
    matches!(extent, Some(Extent::Last(_)))
}

// What a logical partition doesn't have: the first of these that is given.
#[tactic(auto, unfolding(crate::specs::Records::foreign_logical))]
fn foreign_logical(part: &PartDraft) -> Option<Key>
    ensures { result ≡ foreign_logical_spec part.now }
{
    if part.unique.is_some() {
        return Some(Key::Uuid);
    }
    if part.name.is_some() {
        return Some(Key::Name);
    }
    if part.attributes.is_some() {
        return Some(Key::Attributes);
    }
    if says_last(part.extent) {
        return Some(Key::Last);
    }
    if part.offset.is_some() {
        return Some(Key::Offset);
    }
    None
}

// And a record.
fn foreign_record(part: &PartDraft) -> Option<Key>
    ensures { result ≡ foreign_record_spec part.now }
{
    if part.at.is_some() {
        return Some(Key::Record);
    }
    foreign_logical(part)
}

/// The number of a logical partition.
fn logical_number(given: Option<u64>) -> Option<u64>
    ensures { result ≡ logical_spec given }
{
    match given {
        Some(number) => {
            if number < FIRST_LOGICAL {
                None
            } else {
                Some(number)
            }
        }
        None => None,
    }
}

fn is_unused(records: &[Option<Record>; 4], number: u64) -> bool
    requires first { 1 ≤ number }
    requires last { number ≤ 4 }
    ensures { result ≡ is_unused_spec records.now number }
{
    records[number as usize - 1].is_none()
}

// Whether the text doesn't give its number either.
fn is_open(parts: &[PartDraft], records: &[Option<Record>; 4], number: u64) -> bool
    requires first { 1 ≤ number }
    requires last { number ≤ 4 }
    ensures { result ≡ is_open_spec parts.now records.now number }
{
    is_unused(records, number) && !gives(parts, number)
}

// The lowest such number.
#[tactic(auto, unfolding(crate::specs::Records::lowest_of_four))]
fn lowest_of_four(parts: &[PartDraft], records: &[Option<Record>; 4]) -> Option<u64>
    ensures value { result ≡ lowest_spec parts.now records.now }
    ensures within { IfSome result (λ n. (1 ≤ n) × (n ≤ 4)) }
{
    if is_open(parts, records, 1) {
        return Some(1);
    }
    if is_open(parts, records, 2) {
        return Some(2);
    }
    if is_open(parts, records, 3) {
        return Some(3);
    }
    if is_open(parts, records, 4) {
        return Some(4);
    }
    None
}

// The number of a record.
#[tactic(auto, unfolding(crate::specs::Records::record_number))]
fn record_number(
    parts: &[PartDraft],
    records: &[Option<Record>; 4],
    given: Option<u64>,
) -> Option<u64>
    ensures value { result ≡ number_spec parts.now records.now given }
    ensures within { IfSome result (λ n. (1 ≤ n) × (n ≤ 4)) }
{
    let Some(number) = given else {
        return lowest_of_four(parts, records);
    };
    if number != 0 && number < FIRST_LOGICAL && is_unused(records, number) {
        Some(number)
    } else {
        None
    }
}

// The type of a partition.
fn record_kind(given: Option<NamedType>) -> Option<u8>
    ensures { result ≡ kind_spec given }
{
    match given {
        Some(named) => named.mbr,
        None => Some(DEFAULT_KIND),
    }
}

#[tactic(auto, using(crate::proofs::Told::told_extended))]
fn is_extended(kind: u8) -> bool
    ensures { result ≡ is_extended_spec kind }
{
    is_extended_kind(kind)
}

// ---- a partition in its place

/// The record of a partition.
pub(crate) fn record_with(
    part: &PartDraft,
    kind: u8,
    was: &Option<Was>,
    start: u32,
    size: u32,
) -> Record
    ensures { result ≡ record_spec part.now kind was.now start size }
{
    Record {
        boot: part.boot.unwrap_or(0),
        start_chs: part.start_chs.unwrap_or(start_chs_of(was)),
        kind,
        end_chs: part.end_chs.unwrap_or(end_chs_of(was)),
        start,
        size,
    }
}

/// The label of a partition.
pub(crate) fn record_label<const B: usize>(
    k: usize,
    was: &Option<Was>,
    label: Option<Label>,
    kind: u8,
    run: Run,
    given: Option<Option<Label>>,
) -> Result<Option<Label>, TextFault>
    requires few { k < 2 ^ 63 }
    requires last { run.last < 2 ^ 64 }
    ensures { result ≡ label_spec B k was.now label kind run given }
{
    let is_slice = is_slice_kind::<B>(kind);
    label_as(k, is_slice, was_slice::<B>(was), label, run, given)
}

/// Whether 32 bits can't say a number.
pub(crate) fn is_past_record(n: u128) -> bool
    ensures { result ≡ is_past_spec n }
{
    n > MOST
}

// ---- a record

// What is known of a record before its place is.
#[tactic(auto, unfolding(crate::specs::Records::known_of))]
fn known_of(
    parts: &[PartDraft],
    k: usize,
    part: &PartDraft,
    records: &[Option<Record>; 4],
    extended: &Option<Record>,
) -> Result<Known, TextFault>
    requires few { k < 2 ^ 63 }
    ensures value { result ≡ known_spec parts.now k part.now records.now extended.now }
    ensures within { IfOk result (λ known. (1 ≤ known.number) × (known.number ≤ 4)) }
{
    refuse(k, foreign_record(part))?;
    let number = record_number(parts, records, part.number).ok_or(at(k, Key::Number))?;
    let kind = record_kind(part.kind).ok_or(at(k, Key::Type))?;
    if is_extended(kind) && extended.is_some() {
        return Err(at(k, Key::Type));
    }
    Ok(Known { number, kind })
}

// The extended record, once there is another record.
fn new_extended(extended: Option<Record>, made: &Record) -> Option<Record>
    ensures { result ≡ new_extended_spec extended made.now }
{
    if is_extended(made.kind) {
        Some(*made)
    } else {
        extended
    }
}

// Puts a record among the others.
fn put_record(
    alloc: Global,
    staged: Staged,
    number: u64,
    made: Record,
    label: Option<Label>,
    run: Run,
) -> Result<Staged, AllocError>
    requires first { 1 ≤ number }
    requires last { number ≤ 4 }
    ensures { IfOk result (λ m. stage_of m ≡ with_record (stage_of staged) number made label run) }
{
    let Staged {
        mut records,
        labels,
        mut runs,
        extended,
        later,
    } = staged;
    records[number as usize - 1] = Some(made);
    runs.push(run)?;
    Ok(Staged {
        records,
        labels: put_label(alloc, labels, number, label)?,
        runs,
        extended: new_extended(extended, &made),
        later,
    })
}

// Makes a record in its place.
#[tactic(auto, unfolding(crate::specs::Records::record_over))]
fn record_at<const B: usize>(
    alloc: Global,
    basis: &MbrBasis<'_>,
    k: usize,
    part: &PartDraft,
    staged: Staged,
    known: &Known,
    run: Run,
) -> Result<Staged, DraftError>
    requires few { k < 2 ^ 63 }
    requires place { run.last < 2 ^ 64 }
    requires first { 1 ≤ known.now.number }
    requires last { known.now.number ≤ 4 }
    ensures ok { IfOk result (λ m. Ok (stage_of m) ≡ record_at_spec (mbr_frame B basis.now) k part.now (stage_of staged) known.now run) }
    ensures err { IfErr result (Tells (λ e. Err e ≡ record_at_spec (mbr_frame B basis.now) k part.now (stage_of staged) known.now run)) }
{
    let was = kept(was_record(basis.past.records, known.number), run);
    if is_past_record(run.first) {
        return Err(DraftError::Fault(at(k, Key::Start)));
    }
    let length = length_of(run);
    if is_past_record(length) {
        return Err(DraftError::Fault(at(k, Key::Size)));
    }
    let label = find_label(basis.past.labels, known.number);
    let label = record_label::<B>(k, &was, label, known.kind, run, part.bsd)?;
    let record = record_with(part, known.kind, &was, run.first as u32, length as u32);
    Ok(put_record(alloc, staged, known.number, record, label, run)?)
}

// Makes a record, which has this place in the list.
#[tactic(auto, using(crate::proofs::Staging::made_known, crate::proofs::Staging::failed_known))]
fn add_record<const B: usize>(
    alloc: Global,
    basis: &MbrBasis<'_>,
    k: usize,
    part: &PartDraft,
    staged: Staged,
) -> Result<Staged, DraftError>
    requires size { IsSectorSize B }
    requires few { k < 2 ^ 63 }
    ensures ok { IfOk result (λ m. IsRecord (mbr_frame B basis.now) k part.now (stage_of staged) (Ok (stage_of m))) }
    ensures err { IfErr result (Tells (λ e. IsRecord (mbr_frame B basis.now) k part.now (stage_of staged) (Err e))) }
{
    let known = known_of(basis.parts, k, part, &staged.records, &staged.extended)?;
    let bounds = Bounds {
        low: 1,
        high: u128::from(basis.sectors.saturating_sub(1)).min(MOST),
        leads: false,
    };
    let run = place_in::<B>(alloc, bounds, &staged.runs, k, part)?;
    record_at::<B>(alloc, basis, k, part, staged, &known, run)
}

// ---- a logical partition

fn has_number(later: &[Later], number: u64) -> bool
    ensures { result ≡ has_number_spec later.now number }
{
    later.iter().any(|logical| logical.number == number)
}

// How many have a lower number.
fn count_lower(later: &[Later], number: u64) -> usize
    ensures { result ≡ lower_spec later.now number }
{
    later
        .iter()
        .filter(|logical| logical.number < number)
        .count()
}

// Puts a logical partition behind those of lower numbers.
fn put_later(staged: Staged, logical: Later) -> Result<Staged, AllocError>
    ensures { IfOk result (λ m. stage_of m ≡ with_later (stage_of staged) logical) }
{
    let Staged {
        records,
        labels,
        runs,
        extended,
        mut later,
    } = staged;
    let place = count_lower(&later, logical.number);
    later.insert(place, logical)?;
    Ok(Staged {
        records,
        labels,
        runs,
        extended,
        later,
    })
}

// A logical partition, which has this place in the list.
#[tactic(auto, unfolding(crate::specs::Records::later_of))]
fn add_later(k: usize, part: &PartDraft, staged: Staged, number: u64) -> Result<Staged, DraftError>
    requires few { k < 2 ^ 32 }
    ensures ok { IfOk result (λ m. Ok (stage_of m) ≡ later_spec k part.now (stage_of staged) number) }
    ensures err { IfErr result (Tells (λ e. Err e ≡ later_spec k part.now (stage_of staged) number)) }
{
    refuse(k, foreign_logical(part))?;
    if has_number(&staged.later, number) {
        return Err(DraftError::Fault(at(k, Key::Number)));
    }
    let kind = record_kind(part.kind).ok_or(at(k, Key::Type))?;
    if is_extended(kind) {
        return Err(DraftError::Fault(at(k, Key::Type)));
    }
    let logical = Later {
        place: k as u32,
        number,
        kind,
        part: *part,
    };
    Ok(put_later(staged, logical)?)
}

// ---- all of them

// Makes a partition, which has this place in the list.
fn add_part<const B: usize>(
    alloc: Global,
    basis: &MbrBasis<'_>,
    k: usize,
    part: &PartDraft,
    staged: Staged,
) -> Result<Staged, DraftError>
    requires size { IsSectorSize B }
    requires few { k < 2 ^ 32 }
    ensures ok { IfOk result (λ m. IsStaged (mbr_frame B basis.now) k part.now (stage_of staged) (Ok (stage_of m))) }
    ensures err { IfErr result (Tells (λ e. IsStaged (mbr_frame B basis.now) k part.now (stage_of staged) (Err e))) }
{
    match logical_number(part.number) {
        Some(number) => add_later(k, part, staged, number),
        None => add_record::<B>(alloc, basis, k, part, staged),
    }
}

// Makes all of them, in order.
fn add_all<const B: usize>(
    alloc: Global,
    basis: &MbrBasis<'_>,
    first: Staged,
) -> Result<Staged, DraftError>
    requires size { IsSectorSize B }
    requires few { length basis.now.parts.now ≤ 132 }
    ensures ok { IfOk result (λ m. AreStaged (mbr_frame B basis.now) 0 basis.now.parts.now (stage_of first) (Ok (stage_of m))) }
    ensures err { IfErr result (Tells (λ e. AreStaged (mbr_frame B basis.now) 0 basis.now.parts.now (stage_of first) (Err e))) }
{
    let mut staged = first;
    for k in 0..basis.parts.len() {
        staged = add_part::<B>(alloc, basis, k, &basis.parts[k], staged)?;
    }
    Ok(staged)
}

// Adds the sectors of a record of which the text says both ends.
fn push_record<const B: usize>(runs: &mut Vec<Run>, part: &PartDraft) -> Result<(), AllocError>
    requires size { IsSectorSize B }
    ensures { OnOk result (runs.new.items ≡ runs.old.items ++ stated_as B part.now (logical_spec part.now.number)) }
{
    match logical_number(part.number) {
        Some(_) => Ok(()),
        None => push_stated::<B>(runs, part),
    }
}

// The sectors of all of these.
fn stated_records<const B: usize>(
    alloc: Global,
    parts: &[PartDraft],
) -> Result<Vec<Run>, AllocError>
    requires size { IsSectorSize B }
    ensures { IfOk result (λ v. v.items ≡ stated_spec B parts.now) }
{
    let mut runs = Vec::new(alloc);
    for k in 0..parts.len() {
        push_record::<B>(&mut runs, &parts[k])?;
    }
    Ok(runs)
}

// What there is before the first partition.
fn first_stage<const B: usize>(alloc: Global, basis: &MbrBasis<'_>) -> Result<Staged, AllocError>
    requires size { IsSectorSize B }
    ensures { IfOk result (λ m. stage_of m ≡ first_spec (mbr_frame B basis.now)) }
{
    Ok(Staged {
        records: [None; 4],
        labels: Labels::new(Vec::new(alloc)),
        runs: stated_records::<B>(alloc, basis.parts)?,
        extended: None,
        later: Vec::new(alloc),
    })
}

/// The records of a draft, and its logical partitions in the order of their numbers.
pub(crate) fn staged_of<const B: usize>(
    alloc: Global,
    basis: &MbrBasis<'_>,
) -> Result<Staged, DraftError>
    requires size { IsSectorSize B }
    requires few { length basis.now.parts.now ≤ 132 }
    ensures ok { IfOk result (λ m.
        AreStaged (mbr_frame B basis.now) 0 basis.now.parts.now (first_spec (mbr_frame B basis.now)) (Ok (stage_of m))) }
    ensures err { IfErr result (Tells (λ e.
        AreStaged (mbr_frame B basis.now) 0 basis.now.parts.now (first_spec (mbr_frame B basis.now)) (Err e))) }
{
    let first = first_stage::<B>(alloc, basis)?;
    add_all::<B>(alloc, basis, first)
}
