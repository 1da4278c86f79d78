//! Whether a layout is sound.

ghost use Rattle.std.specs.Prelude.{◌≡◌, ◌+◌, ◌<◌, ◌↔◌, ℕ, IfOk, IsTrue, IsFalse, All, length, slice_index_or};
ghost use Rattle.pt_sector.specs.Sectors.{IsSectorSize};
ghost use Rattle.pt_members.specs.Tables.{AreAlone};
ghost use Rattle.pt_members.specs.Members.{groups_of};
ghost use Rattle.pt_layout.specs.inner.Sound.{IsOrdered, FirstOverlapIs, AllOrdered, SharedIs, HasSameUnique, SameAt, TwinIs, TwinsAre};
ghost use Rattle.pt_layout.specs.inner.Sound.{entry_mark, OutsideIs, OverlapIs, OnTableIs, SameGuidIs};
ghost use Rattle.pt_layout.specs.Sound.{AllInside, UnsoundIs};

use crate::sound::faults::{Fault, first_fault};
use crate::sound::finding::Finding;
use crate::sound::groups::{Siblings, groups};
use crate::sound::overlap::{Overlap, first_overlap};
use crate::sound::spot::Spot;
use pt_gpt::Entry;
use pt_members::{Alone, Body, Layout, alone_sectors};
use pt_path::Path;
use pt_sector::Lba;
use std::alloc::{AllocError, Global};

fn shared_in(alloc: Global, group: &Siblings) -> Result<Option<Overlap>, AllocError>
    requires { All IsOrdered group.now.members }
    ensures found { IfOk result (λ o. FirstOverlapIs group.now.members o) }
{
    let members = Vec::from_slice(alloc, group.as_slice())?;
    first_overlap(members)
}

// The first overlap of the first group that has one.
fn first_shared(alloc: Global, groups: &[Siblings]) -> Result<Option<Overlap>, AllocError>
    requires { AllOrdered groups.now }
    ensures found { IfOk result (λ o. SharedIs groups.now o) }
{
    for k in 0..groups.len() {
        let shared = shared_in(alloc, &groups[k])?;
        if shared.is_some() {
            return Ok(shared);
        }
    }
    Ok(None)
}

fn has_same_unique(a: &Option<Entry>, b: &Option<Entry>) -> bool
    ensures { IsTrue result ↔ HasSameUnique a.now b.now }
{
    match (a, b) {
        (Some(a), Some(b)) => a.unique == b.unique,
        _ => false,
    }
}

// The first entry before one that has its unique GUID.
fn twin_of(entries: &[Option<Entry>], k: usize) -> Option<usize>
    requires { k < length entries.now }
    ensures { TwinIs entries.now k result }
{
    if entries[k].is_none() {
        return None;
    }
    for i in 0..k {
        if has_same_unique(&entries[i], &entries[k]) {
            return Some(i);
        }
    }
    None
}

// A number below 2,048 for an entry: entries of one unique GUID have one number, and few others have where GUIDs were drawn
// by chance.
fn mark_of(entry: &Option<Entry>) -> usize
    ensures value { result ≡ entry_mark entry.now }
    ensures small { result < 2048 }
{
    match entry {
        Some(e) => {
            let g = &e.unique.0;
            (g[0] as usize + 8 * g[15] as usize + 64 * g[4] as usize + 512 * g[9] as usize) % 2048
        }
        None => 0,
    }
}

// The first entry before one that has its unique GUID. It is searched for only where the number was met before.
fn twin_where(entries: &[Option<Entry>], k: usize, is_met: bool) -> Option<usize>
    requires within { k < length entries.now }
    requires unmet { IsFalse is_met → (i : ℕ) → i < k → ¬ SameAt entries.now i k }
    ensures { TwinIs entries.now k result }
{
    if is_met { twin_of(entries, k) } else { None }
}

// The first two entries of one unique GUID, by places.
#[tactic(auto, using(crate::proofs::Marks::unmet))]
fn first_twins(entries: &[Option<Entry>]) -> Option<(usize, usize)>
    ensures { TwinsAre entries.now result }
{
    let mut met = [false; 2048];
    for k in 0..entries.len() {
        let mark = mark_of(&entries[k]);
        if let Some(i) = twin_where(entries, k, met[mark]) {
            return Some((i, k));
        }
        met[mark] = true;
    }
    None
}

// Entries with one unique GUID, by their numbers.
fn same_guid(body: &Body) -> Option<(u64, u64)>
    ensures { SameGuidIs body.now result }
{
    match body {
        Body::Mbr { .. } => None,
        Body::Gpt(table) => match first_twins(table.entries.as_slice()) {
            Some((i, k)) => Some((i as u64 + 1, k as u64 + 1)),
            None => None,
        },
    }
}

fn outside_usable<const B: usize>(
    layout: &Layout,
    alone: &Alone,
    groups: &[Siblings],
) -> Option<Path>
    requires size { IsSectorSize B }
    requires alone { AreAlone B layout.now alone.now }
    requires all { groups.now ≡ groups_of B layout.now }
    ensures { OutsideIs B layout.now result }
{
    match first_fault::<B>(layout, alone, Fault::Outside, groups) {
        Some(spot) => Some(spot.path),
        None => None,
    }
}

fn overlapping<const B: usize>(
    alloc: Global,
    layout: &Layout,
    groups: &[Siblings],
) -> Result<Option<Overlap>, AllocError>
    requires all { groups.now ≡ groups_of B layout.now }
    requires inside { AllInside B layout.now }
    ensures found { IfOk result (λ o. OverlapIs B layout.now o) }
{
    match first_shared(alloc, groups) {
        Ok(Some(overlap)) => Ok(Some(overlap)),
        Ok(None) => Ok(None),
        Err(e) => Err(e),
    }
}

fn on_table<const B: usize>(layout: &Layout, alone: &Alone, groups: &[Siblings]) -> Option<Spot>
    requires size { IsSectorSize B }
    requires alone { AreAlone B layout.now alone.now }
    requires all { groups.now ≡ groups_of B layout.now }
    requires inside { AllInside B layout.now }
    ensures { OnTableIs B layout.now result }
{
    match first_fault::<B>(layout, alone, Fault::Buried, groups) {
        Some(spot) => Some(spot),
        None => None,
    }
}

/// The first of findings 7 to 10 that holds of a layout, none exactly where it is sound.
pub fn unsound<const B: usize>(
    alloc: Global,
    layout: &Layout,
) -> Result<Option<Finding>, AllocError>
    requires size { IsSectorSize B }
    ensures found { IfOk result (λ f. UnsoundIs B layout.now f) }
{
    let groups = groups::<B>(alloc, layout)?;
    let alone = alone_sectors::<B>(alloc, layout)?;
    if let Some(path) = outside_usable::<B>(layout, &alone, &groups) {
        return Ok(Some(Finding::OutsideUsable(path)));
    }
    let overlap = overlapping::<B>(alloc, layout, &groups)?;
    if let Some(overlap) = overlap {
        return Ok(Some(Finding::Overlap(overlap.before, overlap.it)));
    }
    if let Some(spot) = on_table::<B>(layout, &alone, &groups) {
        return Ok(Some(Finding::OnTable(spot.path, Lba(spot.lba))));
    }
    match same_guid(&layout.body) {
        Some((lower, higher)) => Ok(Some(Finding::SameGuid(lower, higher))),
        None => Ok(None),
    }
}
