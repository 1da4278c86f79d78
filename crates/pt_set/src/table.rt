//! The layout that a draft makes of a disk.

ghost use Rattle.std.specs.Prelude.{◌≡◌, IfOk, IfErr, Ok, Err};
ghost use Rattle.std.specs.Option.{option_map};
ghost use Rattle.pt_sector.specs.Sectors.{IsSectorSize};
ghost use Rattle.pt_set.specs.Layouts.{IsGptOver, IsMbrOver, IsTableOf, fits_disk as fits_spec, kind_for as kind_spec};
ghost use Rattle.pt_set.specs.inner.Made.{Tells};

use crate::faults::of;
use crate::gpt::gpt_for;
use crate::mbr::mbr_for;
use pt_drafts::{Draft, DraftError, Key, TableKind, TextFault};
use pt_guid::Guid;
use pt_members::{Body, Labels, Layout};
use std::alloc::Global;

// That a draft says nothing else of the disk's sectors than is so.
#[tactic(auto, unfolding(crate::specs::Layouts::fits_disk))]
fn fits_disk<const B: usize>(draft: &Draft, sectors: u64) -> Result<(), TextFault>
    requires size { IsSectorSize B }
    ensures { result ≡ fits_spec B sectors draft.now }
{
    if draft.sectors.unwrap_or(sectors) != sectors {
        return Err(of(Key::Sectors));
    }
    if draft.sector_size.unwrap_or(B as u64) != B as u64 {
        return Err(of(Key::SectorSize));
    }
    Ok(())
}

// The kind of the table: the text's, or else that of the table that is there, or else a GPT.
fn kind_for(draft: &Draft, old: Option<&Layout>) -> TableKind
    ensures { result ≡ kind_spec draft.now.label (option_map (λ o. o.now) old.entry) }
{
    if let Some(kind) = draft.label {
        return kind;
    }
    match old {
        Some(layout) => match layout.body {
            Body::Gpt(_) => TableKind::Gpt,
            Body::Mbr { .. } => TableKind::Mbr,
        },
        None => TableKind::Gpt,
    }
}

// A GPT on a disk that denotes this, or nothing.
fn gpt_over<const B: usize>(
    alloc: Global,
    draft: &Draft,
    sectors: u64,
    old: Option<&Layout>,
    fresh: &[Guid],
) -> Result<Layout, DraftError>
    requires size { IsSectorSize B }
    ensures ok { IfOk result (λ o. IsGptOver B sectors (option_map (λ o. o.now) old.entry) fresh.now draft.now (Ok o)) }
    ensures err { IfErr result (Tells (λ e. IsGptOver B sectors (option_map (λ o. o.now) old.entry) fresh.now draft.now (Err e))) }
{
    if let Some(layout) = old {
        if let Body::Gpt(table) = &layout.body {
            return gpt_for::<B>(alloc, draft, sectors, Some(table), &layout.labels, fresh);
        }
    }
    let none = Labels::new(Vec::new(alloc));
    gpt_for::<B>(alloc, draft, sectors, None, &none, fresh)
}

// An MBR on a disk that denotes this, or nothing.
fn mbr_over<const B: usize>(
    alloc: Global,
    draft: &Draft,
    sectors: u64,
    old: Option<&Layout>,
) -> Result<Layout, DraftError>
    requires size { IsSectorSize B }
    ensures ok { IfOk result (λ o. IsMbrOver B sectors (option_map (λ o. o.now) old.entry) draft.now (Ok o)) }
    ensures err { IfErr result (Tells (λ e. IsMbrOver B sectors (option_map (λ o. o.now) old.entry) draft.now (Err e))) }
{
    if let Some(layout) = old {
        if let Body::Mbr { records, chain } = &layout.body {
            let chain = chain.as_slice();
            return mbr_for::<B>(alloc, draft, sectors, records, chain, &layout.labels);
        }
    }
    let none = Labels::new(Vec::new(alloc));
    mbr_for::<B>(alloc, draft, sectors, &[None; 4], &[], &none)
}

/// The layout that a draft makes of a disk with this number of sectors, on which `old` is, if anything.
///
/// docs/table.md has what is taken for each name that the text leaves out. New GUIDs are the next of `fresh`. The error is the first fault
/// of the draft, or lack of memory.
pub fn table_for<const B: usize>(
    alloc: Global,
    draft: &Draft,
    sectors: u64,
    old: Option<&Layout>,
    fresh: &[Guid],
) -> Result<Layout, DraftError>
    requires size { IsSectorSize B }
    ensures ok { IfOk result (λ o. IsTableOf B sectors (option_map (λ o. o.now) old.entry) fresh.now draft.now (Ok o)) }
    ensures err { IfErr result (Tells (λ e. IsTableOf B sectors (option_map (λ o. o.now) old.entry) fresh.now draft.now (Err e))) }
{
    fits_disk::<B>(draft, sectors)?;
    match kind_for(draft, old) {
        TableKind::Gpt => gpt_over::<B>(alloc, draft, sectors, old, fresh),
        TableKind::Mbr => mbr_over::<B>(alloc, draft, sectors, old),
    }
}
