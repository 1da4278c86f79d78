//! The entries that the partitions of a draft become.

ghost use Rattle.std.specs.Prelude.{◌≡◌, ◌<◌, ◌≤◌, ◌^◌, ◌+◌, IfOk, IfSome, IsTrue, None, length, slice_index_or};
ghost use Rattle.std.specs.Option.{option_map};
ghost use Rattle.pt_set.specs.Entries.{entry_at as entry_at_spec, entry_of as entry_spec, foreign_key as foreign_spec, gives as gives_spec};
ghost use Rattle.pt_set.specs.Entries.{is_number as is_number_spec, is_open as is_open_spec};
ghost use Rattle.pt_set.specs.Entries.{is_unused as is_unused_spec, kind_for as kind_spec};
ghost use Rattle.pt_set.specs.Entries.{label_as as label_as_spec, label_by as label_by_spec, label_for as label_spec};
ghost use Rattle.pt_set.specs.Entries.{lowest as lowest_spec, no_foreign as no_foreign_spec, no_slice_has as no_slice_spec};
ghost use Rattle.pt_set.specs.Entries.{number_for as number_spec};
ghost use Rattle.pt_set.specs.Entries.{old_entry as old_entry_spec, unique_for as unique_spec};
ghost use Rattle.pt_set.specs.Entries.{was_there as was_there_spec, with_label as with_label_spec};
ghost use Rattle.pt_edit.specs.Entries.{is_slice};

use crate::faults::at;
use crate::head::{Named, next_named};
use crate::places::length_of;
use pt_bsd::{Label, empty_label};
use pt_drafts::{Key, NamedType, PartDraft, TextFault};
use pt_edit::labels::add_label;
use pt_edit::space::Run;
use pt_gpt::{Entries, Entry, Table};
use pt_guid::{Guid, type_of_code};
use pt_members::{Labels, is_slice_type};
use std::alloc::{AllocError, Global};

/// The type of a partition whose text has none: a Linux filesystem.
const DEFAULT_CODE: u16 = 0x8300;

/// No slice has more sectors.
const LONGEST_SLICE: u64 = 4294967295;

/// The number and the type of a new entry.
#[derive(Clone, Copy)]
pub(crate) struct Known {
    pub(crate) number: u64,
    pub(crate) kind: Guid,
}

// What an entry of a GPT doesn't have: the first of these that is given.
#[tactic(auto, unfolding(crate::specs::Entries::foreign_key))]
fn foreign_key(part: &PartDraft) -> Option<Key>
    ensures { result ≡ foreign_spec part.now }
{
    if part.at.is_some() {
        return Some(Key::Record);
    }
    if part.offset.is_some() {
        return Some(Key::Offset);
    }
    if part.boot.is_some() {
        return Some(Key::Bootable);
    }
    if part.start_chs.is_some() {
        return Some(Key::StartChs);
    }
    if part.end_chs.is_some() {
        return Some(Key::EndChs);
    }
    None
}

/// That there is no such key.
pub(crate) fn refuse(k: usize, key: Option<Key>) -> Result<(), TextFault>
    requires few { k < 2 ^ 63 }
    ensures { result ≡ no_foreign_spec k key }
{
    match key {
        Some(key) => Err(at(k, key)),
        None => Ok(()),
    }
}

/// That it gives none of these.
pub(crate) fn no_foreign(k: usize, part: &PartDraft) -> Result<(), TextFault>
    requires few { k < 2 ^ 63 }
    ensures { result ≡ no_foreign_spec k (foreign_spec part.now) }
{
    refuse(k, foreign_key(part))
}

fn is_number(number: u64, given: Option<u64>) -> bool
    ensures { result ≡ is_number_spec number given }
{
    match given {
        Some(given) => given == number,
        None => false,
    }
}

/// Whether a partition of the text is given this number.
#[tactic(auto, using(crate::proofs::Numbers::gives_here, crate::proofs::Numbers::gives_next, crate::proofs::Numbers::gives_end))]
pub(crate) fn gives(parts: &[PartDraft], number: u64) -> bool
    ensures { result ≡ gives_spec parts.now number }
{
    for k in 0..parts.len() {
        if is_number(number, parts[k].number) {
            return true;
        }
    }
    false
}

// Whether the entry in a place is unused, and the text doesn't give its number.
fn is_open(parts: &[PartDraft], entries: &Entries, k: usize) -> bool
    requires within { k < length entries.now }
    requires few { length entries.now < 2 ^ 63 }
    ensures { result ≡ is_open_spec parts.now (k + 1) (slice_index_or entries.now k None) }
{
    entries.get(k).is_none() && !gives(parts, k as u64 + 1)
}

// The lowest such number.
#[tactic(auto, using(crate::proofs::Numbers::lowest_here, crate::proofs::Numbers::lowest_next, crate::proofs::Numbers::lowest_end))]
fn lowest(parts: &[PartDraft], entries: &Entries) -> Option<u64>
    requires few { length entries.now < 2 ^ 63 }
    ensures value { result ≡ lowest_spec parts.now 1 entries.now }
    ensures within { IfSome result (λ n. (1 ≤ n) × (n ≤ length entries.now)) }
{
    for k in 0..entries.len() {
        if is_open(parts, entries, k) {
            return Some(k as u64 + 1);
        }
    }
    None
}

// Whether an entry of this number is there, and unused.
fn is_unused(entries: &Entries, number: u64) -> bool
    ensures value { result ≡ is_unused_spec entries.now number }
    ensures within { IsTrue result → (1 ≤ number) × (number ≤ length entries.now) }
{
    if number == 0 || number > entries.len() as u64 {
        return false;
    }
    entries.get(number as usize - 1).is_none()
}

/// The number of a partition.
#[tactic(auto, unfolding(crate::specs::Entries::number_for))]
pub(crate) fn number_for(parts: &[PartDraft], entries: &Entries, given: Option<u64>) -> Option<u64>
    requires few { length entries.now < 2 ^ 63 }
    ensures value { result ≡ number_spec parts.now entries.now given }
    ensures within { IfSome result (λ n. (1 ≤ n) × (n ≤ length entries.now)) }
{
    let Some(number) = given else {
        return lowest(parts, entries);
    };
    if is_unused(entries, number) {
        Some(number)
    } else {
        None
    }
}

/// Its type.
pub(crate) fn kind_for(given: Option<NamedType>) -> Option<Guid>
    ensures { result ≡ kind_spec given }
{
    match given {
        Some(named) => named.gpt,
        None => type_of_code(DEFAULT_CODE),
    }
}

// The used entry of a number.
fn entry_at(entries: &Entries, number: u64) -> Option<Entry>
    ensures { result ≡ entry_at_spec entries.now number }
{
    if number == 0 || number > entries.len() as u64 {
        return None;
    }
    entries.get(number as usize - 1)
}

/// The entry of a number in the table that was there.
pub(crate) fn old_entry(old: Option<&Table>, number: u64) -> Option<Entry>
    ensures { result ≡ old_entry_spec (option_map (λ t. t.now) old.entry) number }
{
    match old {
        Some(table) => entry_at(&table.entries, number),
        None => None,
    }
}

/// A partition's own GUID.
pub(crate) fn unique_for(
    fresh: &[Guid],
    taken: usize,
    was: Option<Entry>,
    given: Option<Guid>,
) -> Option<Named>
    ensures { result ≡ unique_spec fresh.now taken was given }
{
    if let Some(guid) = given {
        return Some(Named { guid, taken });
    }
    match was {
        Some(entry) => Some(Named {
            guid: entry.unique,
            taken,
        }),
        None => next_named(fresh, taken),
    }
}

fn is_slice_of<const B: usize>(kind: &Guid) -> bool
    ensures { result ≡ is_slice B kind.now.0 }
{
    B == 512 && is_slice_type(kind)
}

// Whether a slice was there in the same sectors.
fn was_there<const B: usize>(was: Option<Entry>, run: Run) -> bool
    ensures { result ≡ was_there_spec B was run }
{
    let Some(entry) = was else {
        return false;
    };
    is_slice_of::<B>(&entry.kind)
        && u128::from(entry.first) == run.first
        && u128::from(entry.last) == run.last
}

// The label of a slice whose text has none.
fn label_by(k: usize, was: bool, label: Option<Label>, run: Run) -> Result<Option<Label>, TextFault>
    requires few { k < 2 ^ 63 }
    requires last { run.last < 2 ^ 64 }
    ensures { result ≡ label_by_spec k was label run }
{
    if was {
        return Ok(label);
    }
    let length = length_of(run);
    if length < 2 || length > u128::from(LONGEST_SLICE) {
        return Err(at(k, Key::Size));
    }
    Ok(Some(empty_label(length as u32)))
}

/// The label of a partition which is a slice or isn't, where a slice with this label was in the same sectors or wasn't.
#[tactic(auto, unfolding(crate::specs::Entries::label_as))]
pub(crate) fn label_as(
    k: usize,
    is_slice: bool,
    was: bool,
    label: Option<Label>,
    run: Run,
    given: Option<Option<Label>>,
) -> Result<Option<Label>, TextFault>
    requires few { k < 2 ^ 63 }
    requires last { run.last < 2 ^ 64 }
    ensures { result ≡ label_as_spec k is_slice was label run given }
{
    match given {
        Some(None) => Ok(None),
        Some(Some(given)) => {
            if is_slice {
                Ok(Some(given))
            } else {
                Err(at(k, Key::Bsd))
            }
        }
        None => {
            if is_slice {
                label_by(k, was, label, run)
            } else {
                Ok(None)
            }
        }
    }
}

/// The label of a partition of a GPT.
pub(crate) fn label_for<const B: usize>(
    k: usize,
    was: Option<Entry>,
    label: Option<Label>,
    kind: &Guid,
    run: Run,
    given: Option<Option<Label>>,
) -> Result<Option<Label>, TextFault>
    requires few { k < 2 ^ 63 }
    requires last { run.last < 2 ^ 64 }
    ensures { result ≡ label_spec B k was label kind.now run given }
{
    label_as(
        k,
        is_slice_of::<B>(kind),
        was_there::<B>(was, run),
        label,
        run,
        given,
    )
}

/// The entry of a partition.
pub(crate) fn entry_of(part: &PartDraft, kind: &Guid, unique: &Guid, run: Run) -> Entry
    requires first { run.first < 2 ^ 64 }
    requires last { run.last < 2 ^ 64 }
    ensures { result ≡ entry_spec part.now kind.now unique.now run }
{
    Entry {
        kind: *kind,
        unique: *unique,
        first: run.first as u64,
        last: run.last as u64,
        attributes: part.attributes.unwrap_or(0),
        name: part.name.unwrap_or([0; 36]),
    }
}

/// The labels with that of a number, where it has one.
pub(crate) fn put_label(
    alloc: Global,
    labels: Labels,
    number: u64,
    label: Option<Label>,
) -> Result<Labels, AllocError>
    ensures { IfOk result (λ made. made ≡ with_label_spec number label labels) }
{
    match label {
        Some(label) => add_label(alloc, labels, number, &label),
        None => Ok(labels),
    }
}
