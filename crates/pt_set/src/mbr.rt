//! The MBR that a draft makes of a disk.

ghost use Rattle.std.specs.Prelude.{◌≡◌, ◌<◌, ◌≤◌, IfOk, IfErr, Ok, Err, length};
ghost use Rattle.pt_sector.specs.Sectors.{IsSectorSize};
ghost use Rattle.pt_edit.specs.Records.{layout_with};
ghost use Rattle.pt_set.specs.Chains.{links_for as links_spec};
ghost use Rattle.pt_set.specs.Mbrs.{IsChained, IsChainedBy, IsMbrOf, fits_mbr as fits_spec, is_guid as is_guid_spec};
ghost use Rattle.pt_set.specs.Mbrs.{none_later as none_later_spec, without_chain as without_spec};
ghost use Rattle.pt_set.specs.inner.Made.{Tells};
ghost use Rattle.pt_set.specs.inner.Staged.{mbr_frame, stage_of};

use crate::chains::{chain_of, entered, links_for};
use crate::faults::{at, of};
use crate::past::{Past, logicals_in};
use crate::records::{Later, MbrBasis, Staged, staged_of};
use pt_drafts::{Chain, DiskId, Draft, DraftError, Key, TextFault};
use pt_mbr::{Ebr, Record};
use pt_members::{Body, Ebrs, Labels, Layout};
use std::alloc::Global;

/// A table has no more partitions: four records, and 128 in a chain.
const MOST_PARTS: usize = 132;

fn is_guid(disk: &Option<DiskId>) -> bool
    ensures { result ≡ is_guid_spec disk.now }
{
    matches!(disk, Some(DiskId::Guid(_)))
}

// That the table says nothing that only a GPT has.
#[tactic(auto, unfolding(crate::specs::Mbrs::fits_mbr))]
fn fits_mbr(draft: &Draft) -> Result<(), TextFault>
    ensures value { result ≡ fits_spec draft.now }
    ensures few { IfOk result (λ _. length draft.now.parts ≤ 132) }
{
    if is_guid(&draft.disk) {
        return Err(of(Key::Id));
    }
    if draft.first.is_some() {
        return Err(of(Key::FirstLba));
    }
    if draft.last.is_some() {
        return Err(of(Key::LastLba));
    }
    if draft.entries.is_some() {
        return Err(of(Key::Entries));
    }
    if draft.parts.as_slice().len() > MOST_PARTS {
        return Err(of(Key::Partitions));
    }
    Ok(())
}

fn none_later(later: &[Later]) -> Result<(), TextFault>
    ensures { result ≡ none_later_spec later.now }
{
    match later.first() {
        Some(logical) => Err(at(logical.place as usize, Key::Number)),
        None => Ok(()),
    }
}

fn layout_of(sectors: u64, records: [Option<Record>; 4], chain: Ebrs, labels: Labels) -> Layout
    ensures { result ≡ layout_with sectors records chain labels }
{
    Layout {
        sectors,
        body: Body::Mbr { records, chain },
        labels,
    }
}

// Without an extended partition there are no logical ones.
#[tactic(auto, unfolding(crate::specs::Mbrs::without_chain))]
fn without_chain(
    alloc: Global,
    sectors: u64,
    chain: &Option<Chain>,
    staged: Staged,
) -> Result<Layout, TextFault>
    ensures { result ≡ without_spec sectors chain.now (stage_of staged) }
{
    if chain.is_some() {
        return Err(of(Key::Chain));
    }
    none_later(&staged.later)?;
    let none = Ebrs::new(Vec::new(alloc));
    Ok(layout_of(sectors, staged.records, none, staged.labels))
}

// With one there is a chain.
fn with_chain<const B: usize>(
    alloc: Global,
    basis: &MbrBasis<'_>,
    chain: &Option<Chain>,
    extended: &Record,
    staged: Staged,
) -> Result<Layout, DraftError>
    requires size { IsSectorSize B }
    ensures ok { IfOk result (λ o.
        IsChainedBy (mbr_frame B basis.now) (stage_of staged) extended.now (links_spec extended.now.start chain.now) (Ok o)) }
    ensures err { IfErr result (Tells (λ e.
        IsChainedBy (mbr_frame B basis.now) (stage_of staged) extended.now (links_spec extended.now.start chain.now) (Err e))) }
{
    let links = links_for(alloc, extended, chain)?;
    let Staged {
        records,
        labels,
        later,
        ..
    } = staged;
    let entered = entered::<B>(alloc, basis, extended, labels, &later, links)?;
    let chain = chain_of(alloc, &entered.logicals, &entered.links)?;
    Ok(layout_of(basis.sectors, records, chain, entered.labels))
}

// The layout, once the records are there.
fn chained<const B: usize>(
    alloc: Global,
    basis: &MbrBasis<'_>,
    chain: &Option<Chain>,
    staged: Staged,
) -> Result<Layout, DraftError>
    requires size { IsSectorSize B }
    ensures ok { IfOk result (λ o. IsChained (mbr_frame B basis.now) chain.now (stage_of staged) staged.extended (Ok o)) }
    ensures err { IfErr result (Tells (λ e. IsChained (mbr_frame B basis.now) chain.now (stage_of staged) staged.extended (Err e))) }
{
    match staged.extended {
        Some(extended) => with_chain::<B>(alloc, basis, chain, &extended, staged),
        None => Ok(without_chain(alloc, basis.sectors, chain, staged)?),
    }
}

/// The layout that a draft of an MBR makes of a disk with this number of sectors; what was there are these records, with their chain
/// and their labels.
///
/// The error is the first fault of the draft, or lack of memory.
pub(crate) fn mbr_for<'a, const B: usize>(
    alloc: Global,
    draft: &'a Draft,
    sectors: u64,
    records: &'a [Option<Record>; 4],
    chain: &[Ebr],
    labels: &'a Labels,
) -> Result<Layout, DraftError>
    requires size { IsSectorSize B }
    ensures ok { IfOk result (λ o. IsMbrOf B sectors records.now chain.now labels.now draft.now (Ok o)) }
    ensures err { IfErr result (Tells (λ e. IsMbrOf B sectors records.now chain.now labels.now draft.now (Err e))) }
{
    fits_mbr(draft)?;
    let logicals = logicals_in(alloc, chain)?;
    let basis = MbrBasis {
        sectors,
        past: Past {
            records,
            logicals: &logicals,
            labels,
        },
        parts: draft.parts.as_slice(),
    };
    let staged = staged_of::<B>(alloc, &basis)?;
    chained::<B>(alloc, &basis, &draft.chain, staged)
}
