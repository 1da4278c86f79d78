//! What a draft of a GPT says of the table itself.

ghost use Rattle.std.specs.Prelude.{◌≡◌, ◌≤◌, IfOk, length};
ghost use Rattle.std.specs.Option.{option_map};
ghost use Rattle.pt_sector.specs.Sectors.{IsSectorSize};
ghost use Rattle.pt_set.specs.Heads.{count_for as count_spec, disk_for as disk_spec, first_for as first_spec};
ghost use Rattle.pt_set.specs.Heads.{head_for as head_spec, last_for as last_spec, next_named as next_spec};

use crate::faults::of;
use pt_drafts::{DiskId, Draft, Key, TextFault};
use pt_gpt::{MOST_ENTRIES, Table, first_usable};
use pt_guid::Guid;

/// A GUID, and how many fresh ones are taken then.
#[derive(Clone, Copy)]
pub(crate) struct Named {
    pub(crate) guid: Guid,
    pub(crate) taken: usize,
}

/// What there is of a GPT before its partitions.
#[derive(Clone, Copy)]
pub(crate) struct Head {
    pub(crate) disk: Named,
    /// The first and the last usable sector.
    pub(crate) first: u64,
    pub(crate) last: u64,
    /// How many entries the array has.
    pub(crate) count: usize,
}

/// The next fresh GUID, after this many are taken.
pub(crate) fn next_named(fresh: &[Guid], taken: usize) -> Option<Named>
    ensures { result ≡ next_spec fresh.now taken }
{
    match fresh.get(taken) {
        Some(guid) => Some(Named {
            guid: *guid,
            taken: taken + 1,
        }),
        None => None,
    }
}

// How many entries a table has.
fn entry_count(old: Option<&Table>) -> Option<u64>
    ensures { result ≡ option_map (λ t. length t.now.entries) old.entry }
{
    match old {
        Some(table) => Some(table.entries.len() as u64),
        None => None,
    }
}

// How many entries the array has.
#[tactic(auto, unfolding(crate::specs::Heads::count_for))]
fn count_for(old: Option<&Table>, entries: Option<u64>) -> Result<usize, TextFault>
    ensures value { result ≡ count_spec (option_map (λ t. t.now) old.entry) entries }
    ensures few { IfOk result (λ count. count ≤ 128) }
{
    let count = entries.or(entry_count(old)).unwrap_or(MOST_ENTRIES as u64);
    if count == 0 || count > MOST_ENTRIES as u64 {
        return Err(of(Key::Entries));
    }
    Ok(count as usize)
}

// The disk's GUID.
fn disk_for(fresh: &[Guid], old: Option<&Table>, id: Option<DiskId>) -> Option<Named>
    ensures { result ≡ disk_spec fresh.now (option_map (λ t. t.now) old.entry) id }
{
    match id {
        Some(DiskId::Guid(guid)) => Some(Named { guid, taken: 0 }),
        Some(DiskId::Signature) => None,
        None => match old {
            Some(table) => Some(Named {
                guid: table.disk,
                taken: 0,
            }),
            None => next_named(fresh, 0),
        },
    }
}

// The first usable sector.
fn first_for<const B: usize>(old: Option<&Table>, first: Option<u64>) -> u64
    requires size { IsSectorSize B }
    ensures { result ≡ first_spec B (option_map (λ t. t.now) old.entry) first }
{
    if let Some(first) = first {
        return first;
    }
    match old {
        Some(table) => table.first,
        None => first_usable::<B>(),
    }
}

// The last one.
fn last_for<const B: usize>(sectors: u64, last: Option<u64>) -> u64
    requires size { IsSectorSize B }
    ensures { result ≡ last_spec B sectors last }
{
    match last {
        Some(last) => last,
        None => sectors.saturating_sub(first_usable::<B>()),
    }
}

/// The table itself, on a disk of so many sectors.
#[tactic(auto, unfolding(crate::specs::Heads::head_for))]
pub(crate) fn head_for<const B: usize>(
    draft: &Draft,
    sectors: u64,
    old: Option<&Table>,
    fresh: &[Guid],
) -> Result<Head, TextFault>
    requires size { IsSectorSize B }
    ensures value { result ≡ head_spec B sectors (option_map (λ t. t.now) old.entry) fresh.now draft.now }
    ensures few { IfOk result (λ _. length draft.now.parts ≤ 128) }
{
    if draft.chain.is_some() {
        return Err(of(Key::Chain));
    }
    let count = count_for(old, draft.entries)?;
    if draft.parts.as_slice().len() > count {
        return Err(of(Key::Partitions));
    }
    let disk = disk_for(fresh, old, draft.disk).ok_or(of(Key::Id))?;
    Ok(Head {
        disk,
        first: first_for::<B>(old, draft.first),
        last: last_for::<B>(sectors, draft.last),
        count,
    })
}
