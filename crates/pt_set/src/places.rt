//! Where the partitions of a draft lie.

ghost use Rattle.std.specs.Prelude.{◌≡◌, ◌<◌, ◌^◌, ◌++◌, IfOk, IfErr, IfSome, OnOk, Ok, Err, length};
ghost use Rattle.pt_sector.specs.Sectors.{IsSectorSize};
ghost use Rattle.pt_edit.specs.Space.{empties_of};
ghost use Rattle.pt_set.specs.Entries.{run_length};
ghost use Rattle.pt_set.specs.Places.{IsFound, IsFoundFrom, IsPlace, IsPlaceIn, as_list, end_by as end_spec};
ghost use Rattle.pt_set.specs.Places.{end_of as end_of_spec};
ghost use Rattle.pt_set.specs.Places.{last_of as last_spec, run_by as run_by_spec, stated as stated_spec, stated_by as stated_by_spec};
ghost use Rattle.pt_set.specs.inner.Areas.{area_in, empties_by};
ghost use Rattle.pt_set.specs.inner.Made.{Tells};

use crate::faults::at;
use crate::head::Head;
use pt_drafts::{DraftError, Extent, Key, PartDraft, TextFault};
use pt_edit::End;
use pt_edit::space::{Lead, Run, Space, place};
use std::alloc::{AllocError, Global};

/// Where partitions may be placed.
#[derive(Clone, Copy)]
pub(crate) struct Bounds {
    /// The first and the last sector.
    pub(crate) low: u128,
    pub(crate) high: u128,
    /// Whether the sector before a partition is for a record of its own, and so has to be free.
    pub(crate) leads: bool,
}

/// Where a partition starts that the text gives no start, in bytes: at a multiple of 1 MiB.
const ALIGNMENT: usize = 1 << 20;

// The last of so many sectors.
fn last_of(first: u64, count: u64) -> Option<u64>
    ensures { result ≡ last_spec first count }
{
    if count == 0 {
        return None;
    }
    first.checked_add(count - 1)
}

// The last sector of a partition.
fn end_by<const B: usize>(first: u64, extent: Extent) -> Option<u64>
    requires size { IsSectorSize B }
    ensures { result ≡ end_spec B first extent }
{
    match extent {
        Extent::Sectors(count) => last_of(first, count),
        Extent::Bytes(count) => last_of(first, count / B as u64),
        Extent::Last(last) => Some(last),
    }
}

// The sectors from one on.
fn run_by<const B: usize>(first: u64, extent: Extent) -> Option<Run>
    requires size { IsSectorSize B }
    ensures value { result ≡ run_by_spec B first extent }
    ensures last { IfSome result (λ run. run.last < 2 ^ 64) }
    ensures first { IfSome result (λ run. run.first < 2 ^ 64) }
{
    let last = end_by::<B>(first, extent)?;
    Some(Run {
        first: u128::from(first),
        last: u128::from(last),
    })
}

/// A partition of which the text says both ends.
pub(crate) fn stated_by<const B: usize>(part: &PartDraft) -> Option<Run>
    requires size { IsSectorSize B }
    ensures value { result ≡ stated_by_spec B part.now.start part.now.extent }
    ensures last { IfSome result (λ run. run.last < 2 ^ 64) }
    ensures first { IfSome result (λ run. run.first < 2 ^ 64) }
{
    match (part.start, part.extent) {
        (Some(first), Some(extent)) => run_by::<B>(first, extent),
        _ => None,
    }
}

/// Adds the sectors of such a partition.
pub(crate) fn push_stated<const B: usize>(
    runs: &mut Vec<Run>,
    part: &PartDraft,
) -> Result<(), AllocError>
    requires size { IsSectorSize B }
    ensures { OnOk result (runs.new.items ≡ runs.old.items ++ as_list (stated_by_spec B part.now.start part.now.extent)) }
{
    if let Some(run) = stated_by::<B>(part) {
        runs.push(run)?;
    }
    Ok(())
}

/// The sectors of all of them.
pub(crate) fn stated<const B: usize>(
    alloc: Global,
    parts: &[PartDraft],
) -> Result<Vec<Run>, AllocError>
    requires size { IsSectorSize B }
    ensures { IfOk result (λ v. v.items ≡ stated_spec B parts.now) }
{
    let mut runs = Vec::new(alloc);
    for k in 0..parts.len() {
        push_stated::<B>(&mut runs, &parts[k])?;
    }
    Ok(runs)
}

/// How many sectors there are.
pub(crate) fn length_of(run: Run) -> u128
    requires { run.last < 2 ^ 64 }
    ensures { result ≡ run_length run }
{
    run.last.saturating_sub(run.first) + 1
}

// As the word `n` is asked for an end.
fn end_of<const B: usize>(extent: Option<Extent>) -> End
    requires size { IsSectorSize B }
    ensures { result ≡ end_of_spec B extent }
{
    match extent {
        None => End::Block,
        Some(Extent::Sectors(count)) => End::Length(count),
        Some(Extent::Bytes(count)) => End::Length(count / B as u64),
        Some(Extent::Last(last)) => End::At(last),
    }
}

// What stands before a partition: nothing, or its record in a free sector.
fn lead_for(alloc: Global, leads: bool) -> Lead
    ensures { empties_of result ≡ empties_by leads }
{
    if leads {
        Lead::Record(Vec::new(alloc))
    } else {
        Lead::None
    }
}

// The place as the word `n` finds it.
fn found(
    alloc: Global,
    bounds: Bounds,
    runs: &[Run],
    alignment: u64,
    start: u64,
    end: End,
    fault: TextFault,
) -> Result<Run, DraftError>
    requires high { bounds.high < 2 ^ 64 }
    ensures ok { IfOk result (λ run. IsFound (area_in bounds runs.now) alignment start end fault (Ok run)) }
    ensures last { IfOk result (λ run. run.last < 2 ^ 64) }
    ensures first { IfOk result (λ run. run.first < 2 ^ 64) }
    ensures err { IfErr result (Tells (λ e. IsFound (area_in bounds runs.now) alignment start end fault (Err e))) }
{
    let space = Space {
        low: bounds.low,
        high: bounds.high,
        taken: Vec::from_slice(alloc, runs)?,
        lead: lead_for(alloc, bounds.leads),
    };
    match place(space, alignment, start, end) {
        Ok(run) => Ok(run),
        Err(_) => Err(DraftError::Fault(fault)),
    }
}

// From a sector on as far as is free.
fn found_from(
    alloc: Global,
    bounds: Bounds,
    runs: &[Run],
    k: usize,
    start: u64,
) -> Result<Run, DraftError>
    requires few { k < 2 ^ 63 }
    requires high { bounds.high < 2 ^ 64 }
    ensures ok { IfOk result (λ run. IsFoundFrom (area_in bounds runs.now) k start (Ok run)) }
    ensures last { IfOk result (λ run. run.last < 2 ^ 64) }
    ensures first { IfOk result (λ run. run.first < 2 ^ 64) }
    ensures err { IfErr result (Tells (λ e. IsFoundFrom (area_in bounds runs.now) k start (Err e))) }
{
    let fault = at(k, Key::Start);
    if start == 0 {
        return Err(DraftError::Fault(fault));
    }
    let there = Bounds {
        low: bounds.low,
        high: bounds.high,
        leads: false,
    };
    found(alloc, there, runs, 1, start, End::Block, fault)
}

/// Where a partition of a draft lies, which has this place in the list.
pub(crate) fn place_in<const B: usize>(
    alloc: Global,
    bounds: Bounds,
    runs: &[Run],
    k: usize,
    part: &PartDraft,
) -> Result<Run, DraftError>
    requires size { IsSectorSize B }
    requires few { k < 2 ^ 63 }
    requires high { bounds.high < 2 ^ 64 }
    ensures ok { IfOk result (λ run. IsPlaceIn B (area_in bounds runs.now) k part.now.start part.now.extent (Ok run)) }
    ensures last { IfOk result (λ run. run.last < 2 ^ 64) }
    ensures first { IfOk result (λ run. run.first < 2 ^ 64) }
    ensures err { IfErr result (Tells (λ e. IsPlaceIn B (area_in bounds runs.now) k part.now.start part.now.extent (Err e))) }
{
    match (part.start, part.extent) {
        (Some(_), Some(_)) => Ok(stated_by::<B>(part).ok_or(at(k, Key::Size))?),
        (Some(start), None) => found_from(alloc, bounds, runs, k, start),
        (None, extent) => {
            let alignment = (ALIGNMENT / B) as u64;
            let end = end_of::<B>(extent);
            found(alloc, bounds, runs, alignment, 0, end, at(k, Key::Size))
        }
    }
}

/// The same of a GPT.
pub(crate) fn place_for<const B: usize>(
    alloc: Global,
    head: &Head,
    runs: &[Run],
    k: usize,
    part: &PartDraft,
) -> Result<Run, DraftError>
    requires size { IsSectorSize B }
    requires few { k < 2 ^ 63 }
    ensures ok { IfOk result (λ run. IsPlace B head.now runs.now k part.now.start part.now.extent (Ok run)) }
    ensures last { IfOk result (λ run. run.last < 2 ^ 64) }
    ensures first { IfOk result (λ run. run.first < 2 ^ 64) }
    ensures err { IfErr result (Tells (λ e. IsPlace B head.now runs.now k part.now.start part.now.extent (Err e))) }
{
    let bounds = Bounds {
        low: u128::from(head.first),
        high: u128::from(head.last),
        leads: false,
    };
    place_in::<B>(alloc, bounds, runs, k, part)
}
