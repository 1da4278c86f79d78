//! The word `n` without a letter, in a GPT: a new entry.

ghost use Rattle.std.specs.Prelude.{◌≡◌, ◌≢◌, ◌≤◌, ◌<◌, ◌^◌, IfOk, IfErr, IfSome, IfNone, Ok, Err, Some, None, false, length, slice_get};
ghost use Rattle.pt_edit.specs.Space.{area_of, placed};
ghost use Rattle.pt_edit.specs.Entries.{lowest_unused, number_for, new_type, table_area, is_wrong_size, entry_place, new_entry_of};
ghost use Rattle.pt_edit.specs.Entries.{new_labels, with_new_entry, entry_new};
ghost use Rattle.pt_edit.specs.inner.Entries.{whole_of};

use crate::entries::{entry_type_of, is_elsewhere, is_slice_kind_of};
use crate::gpt::{Gpt, used_entry};
use crate::labels::add_label;
use crate::space::{Lead, Run, Space, place, taken_by_entries};
use pt_bsd::empty_label;
use pt_gpt::{Entry, Table};
use pt_guid::Guid;
use pt_members::{Labels, Layout};
use pt_words::{Asked, Code, Refusal};
use std::alloc::{AllocError, Global};

/// The type of a new entry where the word has none: a Linux filesystem.
const DEFAULT_CODE: Code = Code::Four(0x8300);

/// No slice has more sectors.
const LONGEST_SLICE: u128 = 4294967295;

/// The number, the type and the sectors of a new entry.
#[derive(Clone, Copy)]
pub struct NewEntry {
    pub number: u64,
    pub kind: Guid,
    pub run: Run,
}

// The lowest number of an unused entry.
fn lowest_unused(table: &Table) -> Option<u64>
    ensures value { result ≡ lowest_unused table.now }
    ensures first { IfSome result (λ n. 1 ≤ n) }
    ensures last { IfSome result (λ n. n ≤ length table.now.entries) }
{
    for index in 0..table.entries.len() {
        if table.entries.get(index).is_none() {
            return Some(index as u64 + 1);
        }
    }
    None
}

// The number of a new entry.
fn number_for(table: &Table, wanted: u64) -> Result<u64, Refusal>
    ensures value { result ≡ number_for table.now wanted }
    ensures first { IfOk result (λ n. 1 ≤ n) }
    ensures last { IfOk result (λ n. n ≤ length table.now.entries) }
{
    if wanted > table.entries.len() as u64 {
        return Err(Refusal::NoSuchPartition);
    }
    if wanted == 0 {
        return lowest_unused(table).ok_or(Refusal::NoSpace);
    }
    if used_entry(table, wanted).is_some() {
        return Err(Refusal::NumberTaken);
    }
    Ok(wanted)
}

// The type of a new entry.
fn new_type_of(code: &Option<Code>) -> Option<Guid>
    ensures some { IfSome result (λ guid. new_type «code».now ≡ Some guid.0) }
    ensures none { IfNone result (new_type «code».now ≡ None) }
{
    match code {
        Some(code) => entry_type_of(code),
        None => entry_type_of(&DEFAULT_CODE),
    }
}

// Where a new entry may lie.
pub(crate) fn table_space(alloc: Global, table: &Table) -> Result<Space, AllocError>
    ensures area { IfOk result (λ space. area_of space ≡ table_area table.now) }
    ensures small { IfOk result (λ space. space.high < 2 ^ 64) }
{
    let taken = taken_by_entries(alloc, table.entries.as_slice())?;
    Ok(Space {
        low: u128::from(table.first),
        high: u128::from(table.last),
        taken,
        lead: Lead::None,
    })
}

// Whether the length is impossible for a slice.
fn is_wrong_size<const B: usize>(kind: &Guid, run: Run) -> bool
    requires { run.last < 2 ^ 64 }
    ensures { result ≡ is_wrong_size B kind.now.0 run }
{
    let length = run.last.saturating_sub(run.first) + 1;
    is_slice_kind_of::<B>(kind) && (length < 2 || length > LONGEST_SLICE)
}

// The sectors of a new entry.
#[tactic(auto, using(crate::proofs::EntrySteps::placed_on_table))]
fn run_for(alloc: Global, table: &Table, asked: &Asked) -> Result<Run, Refusal>
    ensures ok { IfOk result (λ run. placed (table_area table.now) asked.now.alignment asked.now.start asked.now.end ≡ Ok run) }
    ensures first { IfOk result (λ run. run.first < 2 ^ 64) }
    ensures last { IfOk result (λ run. run.last < 2 ^ 64) }
    ensures err { IfErr result (λ refusal. refusal ≢ Refusal.Memory
        → placed (table_area table.now) asked.now.alignment asked.now.start asked.now.end ≡ Err refusal) }
{
    let space = table_space(alloc, table)?;
    place(space, asked.alignment, asked.start, asked.end)
}

// The place of a new entry.
#[tactic(auto, unfolding(crate::specs::Entries::entry_place))]
fn find_spot<const B: usize>(
    alloc: Global,
    table: &Table,
    asked: &Asked,
) -> Result<NewEntry, Refusal>
    ensures ok { IfOk result (λ s. entry_place B table.now asked.now ≡ Ok s) }
    ensures first { IfOk result (λ s. 1 ≤ s.number) }
    ensures last { IfOk result (λ s. s.number ≤ length table.now.entries) }
    ensures small { IfOk result (λ s. s.run.first < 2 ^ 64) }
    ensures fits { IfOk result (λ s. s.run.last < 2 ^ 64) }
    ensures size { IfOk result (λ s. is_wrong_size B s.kind.0 s.run ≡ false) }
    ensures err { IfErr result (λ refusal. refusal ≢ Refusal.Memory → entry_place B table.now asked.now ≡ Err refusal) }
{
    let number = number_for(table, asked.number)?;
    let kind = new_type_of(&asked.code).ok_or(Refusal::UnknownCode)?;
    let run = run_for(alloc, table, asked)?;
    if is_wrong_size::<B>(&kind, run) {
        return Err(Refusal::ContainerType);
    }
    Ok(NewEntry { number, kind, run })
}

// The new entry of a place.
fn entry_at(spot: &NewEntry, guid: &Guid) -> Entry
    requires first { spot.now.run.first < 2 ^ 64 }
    requires last { spot.now.run.last < 2 ^ 64 }
    ensures { result ≡ new_entry_of spot.now.kind.0 guid.now spot.now.run }
{
    Entry {
        kind: spot.kind,
        unique: *guid,
        first: spot.run.first as u64,
        last: spot.run.last as u64,
        attributes: 0,
        name: [0; 36],
    }
}

// The labels with that of a new slice.
fn label_new<const B: usize>(
    alloc: Global,
    labels: Labels,
    spot: &NewEntry,
) -> Result<Labels, AllocError>
    requires last { spot.now.run.last < 2 ^ 64 }
    requires size { is_wrong_size B spot.now.kind.0 spot.now.run ≡ false }
    ensures { IfOk result (λ made. made ≡ new_labels B spot.now.number spot.now.kind.0 spot.now.run labels) }
{
    if !is_slice_kind_of::<B>(&spot.kind) {
        return Ok(labels);
    }
    let length = spot.run.last.saturating_sub(spot.run.first) + 1;
    add_label(alloc, labels, spot.number, &empty_label(length as u32))
}

// The layout with the entry of a place.
fn put_new<const B: usize>(
    alloc: Global,
    gpt: Gpt,
    spot: &NewEntry,
    guid: &Guid,
) -> Result<Layout, AllocError>
    requires first { spot.now.run.first < 2 ^ 64 }
    requires last { spot.now.run.last < 2 ^ 64 }
    requires number { 1 ≤ spot.now.number }
    requires within { spot.now.number ≤ length gpt.table.entries }
    requires size { is_wrong_size B spot.now.kind.0 spot.now.run ≡ false }
    ensures { IfOk result (λ made. made ≡ with_new_entry B gpt.table spot.now.number spot.now.kind.0 guid.now spot.now.run (whole_of gpt)) }
{
    let Gpt {
        sectors,
        table,
        labels,
    } = gpt;
    let labels = label_new::<B>(alloc, labels, spot)?;
    let gpt = Gpt {
        sectors,
        table,
        labels,
    };
    Ok(gpt.with_entry(spot.number, entry_at(spot, guid)))
}

// The first of the fresh GUIDs.
fn next_guid(fresh: &[Guid]) -> Option<Guid>
    ensures { result ≡ slice_get fresh.now 0 }
{
    if fresh.is_empty() {
        return None;
    }
    Some(fresh[0])
}

// The layout with a new entry, which takes the first of the fresh GUIDs.
#[tactic(auto, unfolding(crate::specs::Entries::entry_new))]
pub(crate) fn new_entry<const B: usize>(
    alloc: Global,
    gpt: Gpt,
    asked: &Asked,
    fresh: &[Guid],
) -> Result<Layout, Refusal>
    ensures ok { IfOk result (λ made. entry_new B gpt.table asked.now fresh.now (whole_of gpt) ≡ Ok made) }
    ensures err { IfErr result (λ refusal. refusal ≢ Refusal.Memory
        → entry_new B gpt.table asked.now fresh.now (whole_of gpt) ≡ Err refusal) }
{
    let spot = find_spot::<B>(alloc, &gpt.table, asked)?;
    let guid = next_guid(fresh).ok_or(Refusal::NoFreshGuid)?;
    if is_elsewhere(&gpt.table, spot.number, &guid) {
        return Err(Refusal::SameGuid);
    }
    Ok(put_new::<B>(alloc, gpt, &spot, &guid)?)
}
