//! The slices of a layout that have a label place, each with its label and with what stands there.

ghost use Rattle.std.specs.Prelude.{◌≡◌, ◌≤◌, ◌<◌, ◌++◌, ◌∷◌, length, IfOk, MatchOption, [], All, IfErr, OnOk, map};
ghost use Rattle.pt_sector.specs.Device.{Blames};
ghost use Rattle.pt_sector.specs.Overlays.{OnlyReads, FailedIn, fault_of, read_of};
ghost use Rattle.pt_sector.specs.Sectors.{IsSectorSize};
ghost use Rattle.pt_members.specs.Members.{place_of, IsPlace};
ghost use Rattle.pt_cases.specs.Writes.{NumbersAscend};
ghost use Rattle.pt_planner.specs.inner.Places.{TakesLabel, Fit, AreSpots, spot_of, IsAt, IsRead, slice_of};

use pt_bsd::Label;
use pt_recover::{Labelled, Slice};
use pt_sector::{Disk, FailedRead, Failure, Lba, Sector, read_sector};
use std::alloc::{AllocError, Global};

/// A slice with a label place, and the label that the layout has there.
#[derive(Clone, Copy)]
pub(crate) struct Spot {
    pub slice: Slice,
    pub label: Option<Label>,
}

/// A label place that was read.
#[derive(Clone, Copy)]
pub(crate) struct Place<const B: usize> {
    pub spot: Spot,
    /// The sector of the place.
    pub at: Lba,
    /// What it holds.
    pub bytes: Sector<B>,
}

// The next label, if it has this number.
fn take_label(labels: &[Labelled], taken: &mut usize, number: u64) -> Option<Label>
    requires { taken.old ≤ length labels.now }
    ensures takes { TakesLabel number labels.now taken.old taken.new result }
    ensures within { taken.new ≤ length labels.now }
{
    if *taken < labels.len() && labels[*taken].number == number {
        let label = labels[*taken].label;
        *taken += 1;
        return Some(label);
    }
    None
}

// Each slice with its label or with none; none where a label is left over.
pub(crate) fn spots(
    alloc: Global,
    slices: &[Slice],
    labels: &[Labelled],
) -> Result<Option<Vec<Spot>>, AllocError>
    requires { NumbersAscend 1 slices.now }
    ensures { IfOk result (λ o. MatchOption o (¬ Fit slices.now labels.now) (λ v. AreSpots slices.now labels.now v.items)) }
{
    let mut spots = Vec::new(alloc);
    let mut taken = 0;
    for k in 0..slices.len() {
        let slice = slices[k];
        let label = take_label(labels, &mut taken, slice.number);
        spots.push(Spot { slice, label })?;
    }
    if taken < labels.len() {
        return Ok(None);
    }
    Ok(Some(spots))
}

fn read_place<const B: usize, D: Disk<B>>(disk: &mut D, spot: Spot) -> Result<Place<B>, FailedRead>
    requires size { IsSectorSize B }
    requires within { place_of spot.slice < D.count disk.old }
    ensures same { OnlyReads D.Disk disk.old disk.new }
    ensures blames { Blames read_of result (D.faults disk.old) (D.faults disk.new) }
    ensures failed { IfErr result (λ e. e.0.0 ≡ place_of spot.slice) }
    ensures spot { IfOk result (λ p. p.spot ≡ spot) }
    ensures at { IfOk result (IsAt (D.count disk.old)) }
    ensures bytes { D.tells → IfOk result (IsRead (D.told disk.old).seen) }
{
    let _sectors = disk.sectors();
    let at = Lba(spot.slice.first + 1);
    let mut bytes = [0; B];
    read_sector(disk, at, &mut bytes)?;
    Ok(Place { spot, at, bytes })
}

fn push_place<const B: usize>(places: &mut Vec<Place<B>>, place: Place<B>) -> Result<(), AllocError>
    ensures { OnOk result (places.new.items ≡ places.old.items ++ place.entry ∷ []) }
{
    places.push(place)?;
    Ok(())
}

// Reads each label place once.
pub(crate) fn read_places<const B: usize, D: Disk<B>>(
    alloc: Global,
    disk: &mut D,
    spots: &[Spot],
) -> Result<Vec<Place<B>>, Failure>
    requires size { IsSectorSize B }
    requires within { All (λ s. place_of s.slice < D.count disk.old) spots.now }
    ensures same { OnlyReads D.Disk disk.old disk.new }
    ensures blames { Blames fault_of result (D.faults disk.old) (D.faults disk.new) }
    ensures failed { IfErr result (FailedIn (IsPlace (map slice_of spots.now))) }
    ensures spots { IfOk result (λ v. map spot_of v.items ≡ spots.now) }
    ensures at { IfOk result (λ v. All (IsAt (D.count disk.old)) v.items) }
    ensures bytes { D.tells → IfOk result (λ v. All (IsRead (D.told disk.old).seen) v.items) }
{
    let mut places = Vec::new(alloc);
    for k in 0..spots.len() {
        let place = read_place(disk, spots[k])?;
        push_place(&mut places, place)?;
    }
    Ok(places)
}
