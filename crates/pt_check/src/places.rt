//! Where a plan may write.

ghost use Rattle.std.specs.Prelude.{◌≡◌, ◌<◌, ◌≤◌, ◌↔◌, IsTrue, IfOk, length};
ghost use Rattle.pt_sector.specs.Sectors.{IsSectorSize};
ghost use Rattle.pt_members.specs.Tables.{OwnedOf, IsGptTable, IsWithin};
ghost use Rattle.pt_recover.specs.Spans.{IsIn};
ghost use Rattle.pt_apply.specs.Plans.{NoneIs, phases_of, writes_in};
ghost use Rattle.pt_check.specs.inner.Answers.{FirstWriteIs};
ghost use Rattle.pt_check.specs.Answers.{FixedOf, InNoTable, InOwned};

use crate::owned::owned_in_either;
use crate::tables::tables_in_either;
use crate::trial::Layouts;
use crate::writes::{Found, Objection, count_writes, first_in_plan};
use pt_apply::{Plan, Write};
use pt_gpt::first_usable;
use pt_layout::{Body, Layout};
use pt_members::{Reach, is_owned, reach_of};
use pt_recover::Trace;
use pt_sector::Lba;
use std::alloc::{AllocError, Global};

/// Up to how many writes each is looked for by itself among the owned sectors.
const FEW_WRITES: usize = 2;

/// Against sectors past the disk's last.
#[derive(Clone, Copy)]
pub(crate) struct OutOfRange {
    pub sectors: u64,
}

impl<const B: usize> Objection<B> for OutOfRange {
    ghost against = { λ o w. ¬ (w.0 < o.sectors) };

    fn objects(&self, write: &Write<B>) -> bool {
        write.lba.0 >= self.sectors
    }
}

/// Whether a sector is a table that each layout of the kind has: sector 0 of an MBR, or one of a GPT but for label places.
fn is_fixed<const B: usize>(layout: &Option<Layout>, lba: Lba) -> bool
    requires { IsSectorSize B }
    ensures { IsTrue result ↔ FixedOf B layout.now lba.0 }
{
    let Some(layout) = layout else {
        return false;
    };
    match &layout.body {
        Body::Mbr { .. } => lba.0 == 0,
        Body::Gpt(_) => is_at_end::<B>(layout.sectors, lba),
    }
}

/// Whether a sector is a table of a GPT on a disk of so many sectors, but for label places.
pub(crate) fn is_at_end<const B: usize>(sectors: u64, lba: Lba) -> bool
    requires { IsSectorSize B }
    ensures { IsTrue result ↔ IsGptTable B sectors lba.0 }
{
    let edge = first_usable::<B>();
    lba.0 < edge || (sectors.saturating_sub(edge - 1) <= lba.0 && lba.0 < sectors)
}

/// Against sectors that are no fixed tables of either layout. It asks for no extended boot record and no label place.
#[derive(Clone, Copy)]
struct Moves<'a> {
    layouts: &'a Layouts,
}

impl<const B: usize> Objection<B> for Moves<'_> {
    ghost against = { λ o w. (¬ FixedOf B o.layouts.now.old w.0) × (¬ FixedOf B o.layouts.now.new w.0) };

    fn objects(&self, write: &Write<B>) -> bool {
        if is_fixed::<B>(&self.layouts.old, write.lba) {
            return false;
        }
        !is_fixed::<B>(&self.layouts.new, write.lba)
    }
}

/// Against sectors that aren't among these.
#[derive(Clone, Copy)]
struct Outside<'a> {
    sectors: &'a Trace,
}

impl<const B: usize> Objection<B> for Outside<'_> {
    ghost against = { λ o w. ¬ IsIn o.sectors.now w.0 };

    fn objects(&self, write: &Write<B>) -> bool {
        !self.sectors.contains(write.lba)
    }
}

/// Against sectors that are among these.
#[derive(Clone, Copy)]
struct Among<'a> {
    sectors: &'a Trace,
}

impl<const B: usize> Objection<B> for Among<'_> {
    ghost against = { λ o w. IsIn o.sectors.now w.0 };

    fn objects(&self, write: &Write<B>) -> bool {
        self.sectors.contains(write.lba)
    }
}

/// The first write of a sector in the tables of neither layout. Extended boot records and label places are looked for only
/// where a write is elsewhere than in the fixed tables.
pub(crate) fn first_stray<const B: usize>(
    alloc: Global,
    plan: &Plan<B>,
    layouts: &Layouts,
) -> Result<Option<Found>, AllocError>
    requires size { IsSectorSize B }
    requires few { length (writes_in (phases_of plan.now)) ≤ 4096 }
    ensures { IfOk result (FirstWriteIs (InNoTable B layouts.now.old layouts.now.new) (writes_in (phases_of plan.now))) }
{
    if first_in_plan(&Moves { layouts }, plan).is_none() {
        return Ok(None);
    }
    let tables = tables_in_either::<B>(alloc, layouts)?;
    Ok(first_in_plan(&Outside { sectors: &tables }, plan))
}

/// Whether a partition of a layout owns a sector. Without a layout none does.
fn is_owned_of<const B: usize>(layout: &Option<Layout>, lba: Lba) -> bool
    ensures { IsTrue result ↔ OwnedOf B layout.now lba.0 }
{
    match layout {
        Some(layout) => is_owned::<B>(layout, lba),
        None => false,
    }
}

/// Against sectors that a partition of either layout owns, each looked for by itself.
#[derive(Clone, Copy)]
struct OwnedIn<'a> {
    layouts: &'a Layouts,
}

impl<const B: usize> Objection<B> for OwnedIn<'_> {
    ghost against = { λ o w. InOwned B o.layouts.now.old o.layouts.now.new w };

    fn objects(&self, write: &Write<B>) -> bool {
        if is_owned_of::<B>(&self.layouts.old, write.lba) {
            return true;
        }
        is_owned_of::<B>(&self.layouts.new, write.lba)
    }
}

/// Whether a plan has so few writes that the owned sectors aren't worth a list.
fn has_few_writes<const B: usize>(plan: &Plan<B>) -> bool {
    match count_writes(plan) {
        Some(count) => count <= FEW_WRITES,
        None => false,
    }
}

/// The first write of a sector that is owned in either layout.
pub(crate) fn first_owned<const B: usize>(
    alloc: Global,
    plan: &Plan<B>,
    layouts: &Layouts,
) -> Result<Option<Found>, AllocError>
    requires size { IsSectorSize B }
    requires few { length (writes_in (phases_of plan.now)) ≤ 4096 }
    ensures { IfOk result (FirstWriteIs (InOwned B layouts.now.old layouts.now.new) (writes_in (phases_of plan.now))) }
{
    if has_few_writes(plan) {
        return Ok(first_in_plan(&OwnedIn { layouts }, plan));
    }
    let owned = owned_in_either::<B>(alloc, layouts)?;
    Ok(first_in_plan(&Among { sectors: &owned }, plan))
}

/// Against sectors in the reach of a layout's partitions.
#[derive(Clone, Copy)]
struct InReach {
    reach: Reach,
}

impl<const B: usize> Objection<B> for InReach {
    ghost against = { λ o w. IsWithin o.reach w.0 };

    fn objects(&self, write: &Write<B>) -> bool {
        self.reach.contains(write.lba)
    }
}

/// Whether the reach of the layout's partitions shows that no write is of a sector that one of them owns. Where it doesn't,
/// there may be none all the same.
#[tactic(auto, using(crate::proofs::Clear::none_owned))]
pub(crate) fn is_clear<const B: usize>(layout: &Option<Layout>, plan: &Plan<B>) -> bool
    requires size { IsSectorSize B }
    requires few { length (writes_in (phases_of plan.now)) ≤ 4096 }
    ensures { IsTrue result → NoneIs (λ w. OwnedOf B layout.now w.0) (writes_in (phases_of plan.now)) }
{
    match layout {
        Some(layout) => {
            let reach = reach_of::<B>(layout);
            match first_in_plan(&InReach { reach }, plan) {
                Some(_) => false,
                None => true,
            }
        }
        None => true,
    }
}
