//! The label places of a wanted layout: what each must hold.
mod place;
mod targets;

ghost use Rattle.std.specs.Prelude.{◌≡◌, length, IfOk, IfErr};
ghost use Rattle.pt_sector.specs.Device.{Blames};
ghost use Rattle.pt_sector.specs.Overlays.{OnlyReads, FailedIn, fault_of};
ghost use Rattle.pt_sector.specs.Sectors.{IsSectorSize};
ghost use Rattle.pt_members.specs.Members.{places_of, IsPlace};
ghost use Rattle.pt_recover.specs.Denotes.{Denotes};
ghost use Rattle.pt_planner.specs.Places.{PlacesAnswer, AreWithin};
ghost use Rattle.pt_planner.specs.inner.Places.{OldAre, AnswerOf};

use crate::places::place::{Place, read_places, spots};
use crate::places::targets::{first_left, targets};
use pt_cases::targets::Target;
use pt_recover::{Layout, Slice, label_places};
use pt_sector::{Disk, Failure};
use std::alloc::{AllocError, Global};

/// What the label places of a wanted layout come to.
#[derive(Drop)]
pub enum LabelTargets<const B: usize> {
    /// A label of the layout has no place, or isn't in the order of the places.
    Misplaced,
    /// A slice without a label of the layout has the magic of one on its place: the number of the first such slice.
    Foreign(u64),
    /// A label can't be written at its place so that it reads back.
    Unreadable,
    /// A target for each place, in the order of the slices.
    Targets(Vec<Target<B>>),
}

// The slices of the old layout that have a label place.
fn old_places<const B: usize>(
    alloc: Global,
    sectors: u64,
    old: &Option<Layout>,
) -> Result<Vec<Slice>, AllocError>
    requires { IsSectorSize B }
    ensures { IfOk result (λ v. OldAre B sectors old.now v.items) }
{
    match old {
        Some(layout) => label_places::<B>(alloc, sectors, &layout.body),
        None => Ok(Vec::new(alloc)),
    }
}

// The answer for places that were read.
fn answer<const B: usize>(
    alloc: Global,
    places: &[Place<B>],
    old: Vec<Slice>,
) -> Result<LabelTargets<B>, AllocError>
    requires { IsSectorSize B }
    ensures { IfOk result (AnswerOf old.items places.now) }
{
    if let Some(number) = first_left(places) {
        return Ok(LabelTargets::Foreign(number));
    }
    let mut by_first = old;
    by_first.sort_unstable_by_key(|slice| slice.first);
    let found = targets(alloc, places, &by_first)?;
    match found {
        Some(targets) => Ok(LabelTargets::Targets(targets)),
        None => Ok(LabelTargets::Unreadable),
    }
}

/// What the label places of a wanted layout must hold, on a disk that denotes the old one. It reads each place once.
///
/// A failed read and a lack of memory are errors; all else is an answer.
pub fn label_targets<const B: usize, D: Disk<B>>(
    alloc: Global,
    disk: &mut D,
    old: &Option<Layout>,
    wanted: &Layout,
) -> Result<LabelTargets<B>, Failure>
    requires size { IsSectorSize B }
    requires sectors { wanted.now.sectors ≡ D.count disk.old }
    requires old { D.tells → Denotes B (D.told disk.old).seen old.now }
    ensures same { OnlyReads D.Disk disk.old disk.new }
    ensures blames { Blames fault_of result (D.faults disk.old) (D.faults disk.new) }
    ensures failed { IfErr result (FailedIn (IsPlace (places_of B (D.count disk.old) wanted.now.body))) }
    ensures answer { D.tells → IfOk result (λ a. PlacesAnswer (D.told disk.old).seen old.now wanted.now a) }
    ensures in_range { IfOk result (AreWithin (D.count disk.old)) }
{
    let sectors = disk.sectors();
    let slices = label_places::<B>(alloc, sectors, &wanted.body)?;
    let found = spots(alloc, &slices, wanted.labels.as_slice())?;
    let Some(spots) = found else {
        return Ok(LabelTargets::Misplaced);
    };
    let places = read_places(alloc, disk, &spots)?;
    let old_slices = old_places::<B>(alloc, sectors, old)?;
    let answer = answer(alloc, &places, old_slices)?;
    Ok(answer)
}
