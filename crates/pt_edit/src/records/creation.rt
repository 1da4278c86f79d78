//! The word `n`: a new partition; of a record the number, and where it is placed.

ghost use Rattle.std.specs.Prelude.{◌≡◌, ◌≢◌, ◌≤◌, ◌<◌, ◌^◌, true, IfOk, IfSome, IfErr, Ok, Err};
ghost use Rattle.pt_edit.specs.Records.{is_primary, is_unused, lowest_unused, number_for, whole_of};
ghost use Rattle.pt_edit.specs.Space.{area_of, placed};
ghost use Rattle.pt_edit.specs.MbrEdits.{disk_area, extended_record, is_second, is_short_slice, record_at, new_chain, new_labels};
ghost use Rattle.pt_edit.specs.MbrEdits.{primary_new, record_new};

use crate::labels::add_label;
use crate::records::chain_create::new_logical;
use crate::records::parts::{MbrParts, is_primary, layout_of, put_record};
use crate::records::types::{is_slice_kind, new_type_of};
use crate::space::{Lead, Run, Space, place, taken_by_records};
use pt_bsd::empty_label;
use pt_mbr::{Ebr, FARTHEST, Record, is_extended_kind};
use pt_members::{Ebrs, Labels, Layout};
use pt_sector::Lba;
use pt_words::{Asked, Refusal};
use std::alloc::{AllocError, Global};

/// The number that asks for one more logical partition.
const ONE_MORE: u64 = 5;

/// The last sector that a record's start can tell.
const LAST: u128 = 0xFFFF_FFFF;

// Whether a number is of no used record.
fn is_unused(records: &[Option<Record>; 4], number: u64) -> bool
    ensures { result ≡ is_unused records.now number }
{
    is_primary(number) && records[number as usize - 1].is_none()
}

// The lowest such number.
fn lowest_unused(records: &[Option<Record>; 4]) -> Option<u64>
    ensures value { result ≡ lowest_unused records.now }
    ensures primary { IfSome result (λ number. is_primary number ≡ true) }
{
    for number in 1..5 {
        if is_unused(records, number) {
            return Some(number);
        }
    }
    None
}

// The number of a new record for the one that is asked for.
fn number_for(records: &[Option<Record>; 4], asked: u64) -> Result<u64, Refusal>
    ensures value { result ≡ number_for records.now asked }
    ensures primary { IfOk result (λ number. is_primary number ≡ true) }
{
    if asked == 0 {
        return lowest_unused(records).ok_or(Refusal::NoSpace);
    }
    if !is_primary(asked) {
        return Err(Refusal::NoSuchPartition);
    }
    if is_unused(records, asked) {
        Ok(asked)
    } else {
        Err(Refusal::NumberTaken)
    }
}

// Where one more partition may be placed, on a disk of so many sectors.
pub(crate) fn record_space(
    alloc: Global,
    sectors: u64,
    records: &[Option<Record>; 4],
) -> Result<Space, AllocError>
    ensures { IfOk result (λ space. area_of space ≡ disk_area sectors records.now) }
{
    let taken = taken_by_records(alloc, records)?;
    Ok(Space {
        low: 1,
        high: u128::from(sectors.saturating_sub(1)).min(LAST),
        taken,
        lead: Lead::None,
    })
}

// The sectors of a new record's partition. Their numbers have 32 bits.
#[tactic(auto, using(crate::proofs::Within::placed_within))]
fn place_record(
    alloc: Global,
    sectors: u64,
    records: &[Option<Record>; 4],
    asked: &Asked,
) -> Result<Run, Refusal>
    ensures ok { IfOk result (λ run. placed (disk_area sectors records.now) asked.now.alignment asked.now.start asked.now.end ≡ Ok run) }
    ensures within { IfOk result (λ run. 1 ≤ run.first × run.first ≤ run.last × run.last < 2 ^ 32) }
    ensures err { IfErr result (λ refusal. refusal ≢ Refusal.Memory
        → placed (disk_area sectors records.now) asked.now.alignment asked.now.start asked.now.end ≡ Err refusal) }
{
    let space = record_space(alloc, sectors, records)?;
    place(space, asked.alignment, asked.start, asked.end)
}

// The extended record, the first where there are more.
#[tactic(auto, using(crate::proofs::Told::searched))]
fn extended_in(records: &[Option<Record>; 4]) -> Option<Record>
    ensures { result ≡ extended_record records.now }
{
    for k in 0..4 {
        if let Some(r) = records[k] {
            if is_extended_kind(r.kind) {
                return Some(r);
            }
        }
    }
    None
}

// Whether a record of a type would be a second extended one.
#[tactic(auto, using(crate::proofs::TypesLemmas::told_extended))]
fn is_second(records: &[Option<Record>; 4], kind: u8) -> bool
    ensures { result ≡ is_second records.now kind }
{
    is_extended_kind(kind) && extended_in(records).is_some()
}

// A new record.
fn record_in(kind: u8, run: Run) -> Record
    requires ordered { run.first ≤ run.last }
    requires inside { 1 ≤ run.first × run.last < 2 ^ 32 }
    ensures { result ≡ record_at kind run }
{
    Record {
        boot: 0,
        start_chs: FARTHEST,
        kind,
        end_chs: FARTHEST,
        start: run.first as u32,
        size: (run.last - run.first + 1) as u32,
    }
}

// The chain with a new record: that of a new extended partition, or the old one.
#[tactic(auto, using(crate::proofs::TypesLemmas::told_extended))]
fn chain_with(alloc: Global, chain: Ebrs, kind: u8, run: Run) -> Result<Ebrs, AllocError>
    requires { run.first < 2 ^ 32 }
    ensures { IfOk result (λ made. made ≡ new_chain kind run chain) }
{
    if !is_extended_kind(kind) {
        return Ok(chain);
    }
    let mut items = Vec::new(alloc);
    items.push(Ebr {
        at: Lba(run.first as u64),
        logical: None,
        next: None,
    })?;
    Ok(Ebrs::new(items))
}

// The labels with a new record: with its label, where it is a slice.
fn labels_with<const B: usize>(
    alloc: Global,
    labels: Labels,
    number: u64,
    kind: u8,
    run: Run,
) -> Result<Labels, AllocError>
    requires ordered { run.first ≤ run.last }
    requires inside { 1 ≤ run.first × run.last < 2 ^ 32 }
    ensures { IfOk result (λ made. made ≡ new_labels B number kind run labels) }
{
    if !is_slice_kind::<B>(kind) {
        return Ok(labels);
    }
    let size = (run.last - run.first + 1) as u32;
    add_label(alloc, labels, number, &empty_label(size))
}

// Whether a record would be a slice without a sector for its label.
fn is_short_slice<const B: usize>(kind: u8, run: Run) -> bool
    requires { run.first ≤ run.last }
    ensures { result ≡ is_short_slice B kind run }
{
    is_slice_kind::<B>(kind) && run.last - run.first < 1
}

// `n` of a record.
#[tactic(auto, unfolding(crate::specs::MbrEdits::primary_new))]
fn add_record<const B: usize>(
    alloc: Global,
    parts: MbrParts,
    asked: &Asked,
) -> Result<Layout, Refusal>
    ensures ok { IfOk result (λ made. primary_new B asked.now parts.records parts.chain (whole_of parts) ≡ Ok made) }
    ensures err { IfErr result (λ refusal. refusal ≢ Refusal.Memory
        → primary_new B asked.now parts.records parts.chain (whole_of parts) ≡ Err refusal) }
{
    let MbrParts {
        sectors,
        records,
        chain,
        labels,
    } = parts;
    let number = number_for(&records, asked.number)?;
    let kind = new_type_of(&asked.code).ok_or(Refusal::UnknownCode)?;
    if is_second(&records, kind) {
        return Err(Refusal::ContainerType);
    }
    let run = place_record(alloc, sectors, &records, asked)?;
    if is_short_slice::<B>(kind, run) {
        return Err(Refusal::ContainerType);
    }
    let chain = chain_with(alloc, chain, kind, run)?;
    let labels = labels_with::<B>(alloc, labels, number, kind, run)?;
    let records = put_record(records, number, Some(record_in(kind, run)));
    Ok(layout_of(sectors, records, chain, labels))
}

/// `n` without a letter: the layout with a new partition.
///
/// The number that is asked for is 1 to 4 of a record, 0 for the lowest of these that is unused, 5 for one more logical
/// partition, whose number is then its place in the chain. The alignment, the start and the end are in the disk's own
/// sector numbers. A new extended partition has one empty extended boot record, in its first sector; a new slice has the
/// empty label. The first of these refusals is reported:
///
/// - `NoSuchPartition`: a number from 6 on, or 5 without an extended partition; `NumberTaken`: a used record has the
///   number; `NoSpace`: all four records are used.
/// - `UnknownCode`: the code isn't of two digits, or is 00 or EE.
/// - `ContainerType`: a second extended partition, or a logical one of type 05 or 0F.
/// - `NoSpace`, `OutsideUsable` and `Overlap` as `crate::space::place` reports them.
/// - `ContainerType`: a slice of fewer than two sectors.
/// - `NoSpace`: a logical partition would need a 129th extended boot record.
///
/// `Memory` is reported for lack of memory alone.
#[tactic(auto, unfolding(crate::specs::MbrEdits::record_new))]
pub fn new<const B: usize>(alloc: Global, parts: MbrParts, asked: &Asked) -> Result<Layout, Refusal>
    ensures ok { IfOk result (λ made. record_new B asked.now parts.records parts.chain (whole_of parts) ≡ Ok made) }
    ensures err { IfErr result (λ refusal. refusal ≢ Refusal.Memory
        → record_new B asked.now parts.records parts.chain (whole_of parts) ≡ Err refusal) }
{
    if asked.number != ONE_MORE {
        return add_record::<B>(alloc, parts, asked);
    }
    let MbrParts {
        sectors,
        records,
        chain,
        labels,
    } = parts;
    let extended = extended_in(&records);
    let (chain, labels) = new_logical::<B>(alloc, extended, chain, labels, asked)?;
    Ok(layout_of(sectors, records, chain, labels))
}
