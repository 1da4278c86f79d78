//! Which sectors may be carried.

ghost use Rattle.std.specs.Prelude.{◌≤◌, ◌<◌, ◌↔◌, ℕ, IsTrue, IfSome, IfNone};
ghost use Rattle.pt_sector.specs.Sectors.{IsSectorSize};
ghost use Rattle.pt_members.specs.Tables.{OwnedOf, TableOf};
ghost use Rattle.pt_recover.specs.Spans.{IsIn as IsTraced};
ghost use Rattle.pt_carry.specs.Data.{InRun, IsFirst, IsIn, UnfitIs};
ghost use Rattle.pt_carry.specs.inner.Copying.{FirstInRun, MayBe};

use crate::error::Unfit;
use crate::known::Known;
use pt_members::{Layout, is_owned, is_table};
use pt_sector::{Extent, Lba};

// Whether a partition of what is denoted owns the sector.
fn is_claimed<const B: usize>(old: &Option<Layout>, lba: Lba) -> bool
    ensures { IsTrue result ↔ OwnedOf B old.now lba.0 }
{
    match old {
        Some(layout) => is_owned::<B>(layout, lba),
        None => false,
    }
}

// Whether the sector is one of the tables of what is denoted.
fn is_in_tables<const B: usize>(old: &Option<Layout>, lba: Lba) -> bool
    requires { IsSectorSize B }
    ensures { IsTrue result ↔ TableOf B old.now lba.0 }
{
    match old {
        Some(layout) => is_table::<B>(layout, lba),
        None => false,
    }
}

/// Why a sector isn't carried to a disk of so many sectors, if so.
fn unfit<const B: usize>(known: &Known, sectors: u64, lba: Lba) -> Option<Unfit>
    requires size { IsSectorSize B }
    ensures some { IfSome result (UnfitIs B sectors known.now.old known.now.new (IsTraced known.now.trace) lba.0) }
    ensures none { IfNone result (MayBe B sectors known.now lba.0) }
{
    if lba.0 >= sectors {
        return Some(Unfit::Outside);
    }
    if is_claimed::<B>(&known.old, lba) {
        return Some(Unfit::Owned);
    }
    if is_in_tables::<B>(&known.old, lba) {
        return Some(Unfit::Table);
    }
    if is_table::<B>(&known.new, lba) {
        return Some(Unfit::NewTable);
    }
    if known.trace.contains(lba) {
        return Some(Unfit::Read);
    }
    None
}

/// The first sector of a run that isn't carried, and why.
fn first_in_run<const B: usize>(known: &Known, sectors: u64, run: &Extent) -> Option<(Lba, Unfit)>
    requires size { IsSectorSize B }
    ensures some { IfSome result (FirstInRun B sectors known.now run.now) }
    ensures none { IfNone result ((s : ℕ) → InRun run.now s → MayBe B sectors known.now s) }
{
    for at in run.first().0..run.last().0 + 1 {
        if let Some(why) = unfit::<B>(known, sectors, Lba(at)) {
            return Some((Lba(at), why));
        }
    }
    None
}

/// The first sector of the runs that isn't carried, and why.
pub(crate) fn first_unfit<const B: usize>(
    known: &Known,
    sectors: u64,
    runs: &[Extent],
) -> Option<(Lba, Unfit)>
    requires size { IsSectorSize B }
    ensures some { IfSome result
        (λ r. UnfitIs B sectors known.now.old known.now.new (IsTraced known.now.trace) r.0.0 r.1
        × IsFirst (MayBe B sectors known.now) runs.now r.0.0) }
    ensures none { IfNone result ((s : ℕ) → IsIn runs.now s → MayBe B sectors known.now s) }
{
    for run in runs {
        if let Some(found) = first_in_run::<B>(known, sectors, run) {
            return Some(found);
        }
    }
    None
}
