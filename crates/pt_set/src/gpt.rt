//! The GPT that a draft makes of a disk.

ghost use Rattle.std.specs.Prelude.{◌≡◌, ◌<◌, ◌≤◌, ◌^◌, IfOk, IfErr, Ok, Err, length};
ghost use Rattle.std.specs.Option.{option_map};
ghost use Rattle.pt_sector.specs.Sectors.{IsSectorSize};
ghost use Rattle.pt_set.specs.Entries.{with_part};
ghost use Rattle.pt_set.specs.Tables.{AreMade, IsGptOf, IsMade, initial, known_of as known_spec, layout_of as layout_spec};
ghost use Rattle.pt_set.specs.Tables.{made_at as made_spec, ready_for as ready_spec};
ghost use Rattle.pt_set.specs.inner.Made.{Tells, frame_in, state_of};

use crate::entries::{
    Known, entry_of, kind_for, label_for, no_foreign, number_for, old_entry, put_label, unique_for,
};
use crate::faults::at;
use crate::head::{Head, Named, head_for};
use crate::places::{place_for, stated};
use pt_bsd::Label;
use pt_drafts::{Draft, DraftError, Key, PartDraft, TextFault};
use pt_edit::space::Run;
use pt_gpt::{Entries, Entry, Table};
use pt_guid::Guid;
use pt_members::{Body, Labels, Layout, find_label};
use std::alloc::{AllocError, Global};

/// What is made of the first partitions of a draft.
#[derive(Drop)]
pub(crate) struct Made {
    pub(crate) entries: Entries,
    pub(crate) labels: Labels,
    /// The sectors that aren't free.
    pub(crate) runs: Vec<Run>,
    /// How many fresh GUIDs are taken.
    pub(crate) taken: usize,
}

/// What the partitions of a draft are made by.
#[derive(Clone, Copy)]
pub(crate) struct Basis<'a> {
    pub(crate) head: Head,
    /// The table that was there, and its labels.
    pub(crate) old: Option<&'a Table>,
    pub(crate) labels: &'a Labels,
    pub(crate) fresh: &'a [Guid],
    pub(crate) parts: &'a [PartDraft],
}

/// A partition before it is among the others.
#[derive(Clone, Copy)]
pub(crate) struct Ready {
    pub(crate) unique: Named,
    pub(crate) label: Option<Label>,
}

// What is known of a partition before its place is.
#[tactic(auto, unfolding(crate::specs::Tables::known_of))]
fn known_of(
    parts: &[PartDraft],
    k: usize,
    part: &PartDraft,
    entries: &Entries,
) -> Result<Known, TextFault>
    requires few { k < 2 ^ 63 }
    requires count { length entries.now < 2 ^ 63 }
    ensures value { result ≡ known_spec parts.now k part.now entries.now }
    ensures within { IfOk result (λ known. (1 ≤ known.number) × (known.number ≤ length entries.now)) }
{
    no_foreign(k, part)?;
    let number = number_for(parts, entries, part.number).ok_or(at(k, Key::Number))?;
    let kind = kind_for(part.kind).ok_or(at(k, Key::Type))?;
    Ok(Known { number, kind })
}

// Its GUID and its label.
#[tactic(auto, unfolding(crate::specs::Tables::ready_for))]
fn ready_for<const B: usize>(
    basis: &Basis<'_>,
    k: usize,
    part: &PartDraft,
    taken: usize,
    known: &Known,
    run: Run,
) -> Result<Ready, TextFault>
    requires few { k < 2 ^ 63 }
    requires last { run.last < 2 ^ 64 }
    ensures { result ≡ ready_spec (frame_in B basis.now) k part.now taken known.now run }
{
    let was = old_entry(basis.old, known.number);
    let unique = unique_for(basis.fresh, taken, was, part.unique).ok_or(at(k, Key::Uuid))?;
    let label = find_label(basis.labels, known.number);
    let label = label_for::<B>(k, was, label, &known.kind, run, part.bsd)?;
    Ok(Ready { unique, label })
}

// Puts an entry among the others.
fn put_part(
    alloc: Global,
    mut made: Made,
    number: u64,
    entry: Entry,
    ready: &Ready,
    run: Run,
) -> Result<Made, AllocError>
    requires first { 1 ≤ number }
    requires last { number ≤ length made.entries }
    ensures { IfOk result (λ m. state_of m ≡ with_part (state_of made) number entry ready.now.label run ready.now.unique.taken) }
{
    made.entries.set(number as usize - 1, Some(entry));
    let Made {
        entries,
        labels,
        mut runs,
        ..
    } = made;
    runs.push(run)?;
    Ok(Made {
        entries,
        labels: put_label(alloc, labels, number, ready.label)?,
        runs,
        taken: ready.unique.taken,
    })
}

// Makes a partition in its place.
#[tactic(auto, unfolding(crate::specs::Tables::made_at))]
fn add_at<const B: usize>(
    alloc: Global,
    basis: &Basis<'_>,
    k: usize,
    part: &PartDraft,
    made: Made,
    known: &Known,
    run: Run,
) -> Result<Made, DraftError>
    requires few { k < 2 ^ 63 }
    requires last { run.last < 2 ^ 64 }
    requires first { run.first < 2 ^ 64 }
    requires least { 1 ≤ known.now.number }
    requires most { known.now.number ≤ length made.entries }
    ensures ok { IfOk result (λ m. Ok (state_of m) ≡ made_spec (frame_in B basis.now) k part.now (state_of made) known.now run) }
    ensures err { IfErr result (Tells (λ e. Err e ≡ made_spec (frame_in B basis.now) k part.now (state_of made) known.now run)) }
    ensures count { IfOk result (λ m. length m.entries ≡ length made.entries) }
{
    let ready = ready_for::<B>(basis, k, part, made.taken, known, run)?;
    let entry = entry_of(part, &known.kind, &ready.unique.guid, run);
    Ok(put_part(alloc, made, known.number, entry, &ready, run)?)
}

// Makes a partition, which has this place in the list.
#[tactic(auto, using(crate::proofs::Making::made_known, crate::proofs::Making::failed_known))]
fn add_part<const B: usize>(
    alloc: Global,
    basis: &Basis<'_>,
    k: usize,
    part: &PartDraft,
    made: Made,
) -> Result<Made, DraftError>
    requires size { IsSectorSize B }
    requires few { k < 2 ^ 63 }
    requires count { length made.entries < 2 ^ 63 }
    ensures ok { IfOk result (λ m. IsMade (frame_in B basis.now) k part.now (state_of made) (Ok (state_of m))) }
    ensures err { IfErr result (Tells (λ e. IsMade (frame_in B basis.now) k part.now (state_of made) (Err e))) }
    ensures count { IfOk result (λ m. length m.entries ≡ length made.entries) }
{
    let known = known_of(basis.parts, k, part, &made.entries)?;
    let run = place_for::<B>(alloc, &basis.head, &made.runs, k, part)?;
    add_at::<B>(alloc, basis, k, part, made, &known, run)
}

// Makes all of them, in order.
fn add_parts<const B: usize>(
    alloc: Global,
    basis: &Basis<'_>,
    first: Made,
) -> Result<Made, DraftError>
    requires size { IsSectorSize B }
    requires few { length basis.now.parts.now ≤ 128 }
    requires count { length first.entries < 2 ^ 63 }
    ensures ok { IfOk result (λ m. AreMade (frame_in B basis.now) 0 basis.now.parts.now (state_of first) (Ok (state_of m))) }
    ensures err { IfErr result (Tells (λ e. AreMade (frame_in B basis.now) 0 basis.now.parts.now (state_of first) (Err e))) }
{
    let mut made = first;
    for k in 0..basis.parts.len() {
        made = add_part::<B>(alloc, basis, k, &basis.parts[k], made)?;
    }
    Ok(made)
}

// What there is before the first partition.
fn initial_for<const B: usize>(alloc: Global, basis: &Basis<'_>) -> Result<Made, AllocError>
    requires size { IsSectorSize B }
    ensures { IfOk result (λ m. state_of m ≡ initial (frame_in B basis.now)) }
{
    Ok(Made {
        entries: Entries::new(vec![in alloc; None; basis.head.count]?),
        labels: Labels::new(Vec::new(alloc)),
        runs: stated::<B>(alloc, basis.parts)?,
        taken: basis.head.disk.taken,
    })
}

/// The layout that a draft of a GPT makes of a disk with this number of sectors; `old` is the table that is there, with its labels.
///
/// The error is the first fault of the draft, or lack of memory.
pub(crate) fn gpt_for<const B: usize>(
    alloc: Global,
    draft: &Draft,
    sectors: u64,
    old: Option<&Table>,
    labels: &Labels,
    fresh: &[Guid],
) -> Result<Layout, DraftError>
    requires size { IsSectorSize B }
    ensures ok { IfOk result (λ o. IsGptOf B sectors (option_map (λ t. t.now) old.entry) labels.now fresh.now draft.now (Ok o)) }
    ensures err { IfErr result (Tells (λ e. IsGptOf B sectors (option_map (λ t. t.now) old.entry) labels.now fresh.now draft.now (Err e))) }
{
    let head = head_for::<B>(draft, sectors, old, fresh)?;
    let basis = Basis {
        head,
        old,
        labels,
        fresh,
        parts: draft.parts.as_slice(),
    };
    let first = initial_for::<B>(alloc, &basis)?;
    let made = add_parts::<B>(alloc, &basis, first)?;
    let Made {
        entries,
        labels,
        ..
    } = made;
    Ok(Layout {
        sectors,
        body: Body::Gpt(Table {
            disk: head.disk.guid,
            first: head.first,
            last: head.last,
            entries,
        }),
        labels,
    })
}
