//! Tables that one of their copies gives, and the sectors that decide a disk of such a table.

ghost use Rattle.std.specs.Prelude.{◌≡◌, ◌≤◌, ◌↔◌, All, IfOk, OnOk, IfSome, IsTrue};
ghost use Rattle.pt_sector.specs.Sectors.{IsSectorSize};
ghost use Rattle.pt_gpt.specs.Copies.{HasRoom};
ghost use Rattle.pt_recover.specs.Spans.{Adds};
ghost use Rattle.pt_follow.specs.Follow.{InCopy};
ghost use Rattle.pt_check.specs.inner.Following.{GivenReads, IsCounted, IsDeciding};

use crate::tables::add_labels;
use pt_gpt::{MOST_ENTRIES, Side, array_at, counted_sectors, header_at};
use pt_members::{Body, label_places};
use pt_recover::Trace;
use std::alloc::{AllocError, Global};

/// Which copies a disk has that denotes a table.
#[derive(Clone, Copy, Debug, PartialEq, Eq)]
pub(crate) enum Given {
    /// The primary one.
    ByPrimary,
    /// The backup alone: no header of the primary one stands.
    WithoutHeader,
    /// The backup alone: the primary one's array has another CRC than its header says, which tells of so many entries.
    WithoutArray(u32),
}

impl Given {
    /// Whether its primary header, if one stands, tells of as many entries as a table may have.
    pub(crate) fn is_counted(self) -> bool
        ensures { IsTrue result ↔ IsCounted self }
    {
        match self {
            Given::WithoutArray(told) => told >= 1 && told <= MOST_ENTRIES as u32,
            _ => true,
        }
    }
}

/// The sectors that decide what a disk denotes whose table is given so.
#[derive(Drop)]
pub(crate) struct GivenTrace {
    pub given: Given,
    pub trace: Trace,
}

// Those of a side's copy, with an array of so many entries.
fn add_copy<const B: usize>(
    trace: &mut Trace,
    sectors: u64,
    side: Side,
    count: u32,
) -> Result<(), AllocError>
    requires size { IsSectorSize B }
    requires room { HasRoom B sectors }
    requires some { 1 ≤ count }
    requires few { count ≤ 128 }
    ensures { OnOk result (Adds trace.old trace.new (InCopy B sectors side count)) }
{
    trace.add_one(header_at(side, sectors))?;
    let first = array_at::<B>(side, sectors);
    trace.add(first, first + (counted_sectors::<B>(count) - 1))
}

fn add_given<const B: usize>(
    trace: &mut Trace,
    sectors: u64,
    count: u32,
    given: Given,
) -> Result<(), AllocError>
    requires size { IsSectorSize B }
    requires room { HasRoom B sectors }
    requires some { 1 ≤ count }
    requires few { count ≤ 128 }
    requires counted { IsCounted given }
    ensures { OnOk result (Adds trace.old trace.new (GivenReads B sectors count given)) }
{
    match given {
        Given::ByPrimary => return add_copy::<B>(trace, sectors, Side::Primary, count),
        Given::WithoutHeader => trace.add_one(header_at(Side::Primary, sectors))?,
        Given::WithoutArray(told) => add_copy::<B>(trace, sectors, Side::Primary, told)?,
    }
    add_copy::<B>(trace, sectors, Side::Backup, count)
}

/// The sectors that decide a disk of so many sectors with this body, whose table has so many entries and is given so.
pub(crate) fn deciding<const B: usize>(
    alloc: Global,
    sectors: u64,
    body: &Body,
    count: u32,
    given: Given,
) -> Result<Trace, AllocError>
    requires size { IsSectorSize B }
    requires room { HasRoom B sectors }
    requires some { 1 ≤ count }
    requires few { count ≤ 128 }
    requires counted { IsCounted given }
    ensures { IfOk result (IsDeciding B sectors body.now count given) }
{
    let mut trace = Trace::new(alloc);
    trace.add_one(0)?;
    add_given::<B>(&mut trace, sectors, count, given)?;
    let places = label_places::<B>(alloc, sectors, body)?;
    add_labels(&mut trace, &places)?;
    Ok(trace)
}

/// The same, kept among those that were asked for before.
pub(crate) fn deciding_of<const B: usize>(
    alloc: Global,
    known: &mut Vec<GivenTrace>,
    sectors: u64,
    body: &Body,
    count: u32,
    given: Given,
) -> Result<Trace, AllocError>
    requires size { IsSectorSize B }
    requires room { HasRoom B sectors }
    requires some { 1 ≤ count }
    requires few { count ≤ 128 }
    requires counted { IsCounted given }
    ensures known { All (λ k. IsDeciding B sectors body.now count k.given k.trace) known.old.items
        → OnOk result (All (λ k. IsDeciding B sectors body.now count k.given k.trace) known.new.items) }
    ensures ok { All (λ k. IsDeciding B sectors body.now count k.given k.trace) known.old.items
        → IfOk result (IsDeciding B sectors body.now count given) }
{
    for k in 0..known.len() {
        if known[k].given == given {
            return known[k].trace.copy(alloc);
        }
    }
    let trace = deciding::<B>(alloc, sectors, body, count, given)?;
    known.push(GivenTrace {
        given,
        trace: trace.copy(alloc)?,
    })?;
    Ok(trace)
}
