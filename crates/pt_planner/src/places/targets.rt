//! What each label place must hold, by the label that the layout has there and the one that the old layout had.

ghost use Rattle.std.specs.Prelude.{◌≡◌, ◌↔◌, ◌<◌, ℕ, IsTrue, IfOk, MatchOption, length, slice_index};
ghost use Rattle.std.specs.List.Sorted.{IsNonDecreasingBy};
ghost use Rattle.pt_sector.specs.Sectors.{IsSectorSize};
ghost use Rattle.pt_planner.specs.inner.Places.{OneHad, HadIs, IsLeftAt, FirstLeftIs, StaysAt, KeptIs, WrittenIs, LabelledIs, TargetIs};
ghost use Rattle.pt_planner.specs.inner.Places.{AreTargets, HasNone};

use crate::places::place::Place;
use pt_bsd::{Label, bears_magic, decode_label, encode_for};
use pt_cases::targets::{Target, TargetKind};
use pt_recover::Slice;
use pt_sector::Sector;
use std::alloc::{AllocError, Global};

// The label that the sector is for an old slice, if that starts where the slice does.
fn label_for<const B: usize>(old: Slice, slice: Slice, bytes: &Sector<B>) -> Option<Label>
    requires { IsSectorSize B }
    ensures { OneHad old slice.first bytes.now result }
{
    if old.first != slice.first {
        return None;
    }
    match decode_label(bytes, old.first, old.len) {
        Ok(label) => Some(label),
        Err(_) => None,
    }
}

// The label that the sector is for an old slice that starts where the slice does. The old ones ascend by first sector, so that
// those that start there are found by a search.
fn had_label<const B: usize>(old: &[Slice], slice: Slice, bytes: &Sector<B>) -> Option<Label>
    requires size { IsSectorSize B }
    requires ascend { IsNonDecreasingBy (λ s. s.first) old.now }
    ensures { HadIs old.now slice.first bytes.now result }
{
    let begin = old.partition_point(|it| it.first < slice.first);
    for k in begin..old.len() {
        if old[k].first != slice.first {
            return None;
        }
        match label_for(old[k], slice, bytes) {
            Some(label) => return Some(label),
            None => {}
        }
    }
    None
}

fn is_left<const B: usize>(place: &Place<B>) -> bool
    requires { IsSectorSize B }
    ensures { IsTrue result ↔ IsLeftAt place.now }
{
    match place.spot.label {
        Some(_) => false,
        None => bears_magic(&place.bytes),
    }
}

// The number of the first slice that has no label and bears a magic.
pub(crate) fn first_left<const B: usize>(places: &[Place<B>]) -> Option<u64>
    requires { IsSectorSize B }
    ensures { FirstLeftIs places.now result }
{
    for k in 0..places.len() {
        if is_left(&places[k]) {
            return Some(places[k].spot.slice.number);
        }
    }
    None
}

fn stays<const B: usize>(place: &Place<B>) -> Target<B>
    ensures { StaysAt place.now result }
{
    Target {
        at: place.at,
        bytes: place.bytes,
        under: place.bytes,
        kind: TargetKind::Stays,
    }
}

// A label that stands there already, if it is one for this slice too.
fn kept<const B: usize>(place: &Place<B>, label: &Label) -> Option<Target<B>>
    requires { IsSectorSize B }
    ensures { KeptIs place.now label.now result }
{
    match decode_label(&place.bytes, place.spot.slice.first, place.spot.slice.len) {
        Ok(found) => {
            if found == *label {
                Some(stays(place))
            } else {
                None
            }
        }
        Err(_) => None,
    }
}

fn are_bytes(bytes: &[u8])
    ensures { (i : ℕ) → slice_index bytes.now i < 256 }
{
    let _count = bytes.len();
}

// That a sector is an array of bytes. Its type says so; contracts see lists of numbers.
fn is_array<const B: usize>(bytes: &Sector<B>)
    ensures count { length bytes.now ≡ B }
    ensures small { (i : ℕ) → slice_index bytes.now i < 256 }
{
    are_bytes(&bytes[..]);
}

// A label over these bytes, if it reads back.
fn written<const B: usize>(
    place: &Place<B>,
    label: &Label,
    under: &Sector<B>,
    kind: TargetKind,
) -> Option<Target<B>>
    requires { IsSectorSize B }
    ensures { WrittenIs place.now label.now under.now kind result }
{
    let slice = place.spot.slice;
    match encode_for(label, slice.first, slice.len, under) {
        Some(bytes) => {
            is_array(&bytes);
            is_array(&place.bytes);
            Some(Target {
                at: place.at,
                bytes,
                under: place.bytes,
                kind,
            })
        }
        None => None,
    }
}

// What a place with this label must hold. The old slices ascend by first sector.
fn labelled<const B: usize>(place: &Place<B>, label: &Label, old: &[Slice]) -> Option<Target<B>>
    requires size { IsSectorSize B }
    requires ascend { IsNonDecreasingBy (λ s. s.first) old.now }
    ensures { LabelledIs old.now place.now label.now result }
{
    match had_label(old, place.spot.slice, &place.bytes) {
        Some(had) => {
            if had == *label {
                kept(place, label)
            } else {
                written(place, label, &place.bytes, TargetKind::Changes)
            }
        }
        None => written(place, label, &[0; B], TargetKind::New),
    }
}

// What a place must hold; none where its label can't be written so that it reads back.
fn target<const B: usize>(place: &Place<B>, old: &[Slice]) -> Option<Target<B>>
    requires size { IsSectorSize B }
    requires ascend { IsNonDecreasingBy (λ s. s.first) old.now }
    ensures { TargetIs old.now place.now result }
{
    match place.spot.label {
        Some(label) => labelled(place, &label, old),
        None => Some(stays(place)),
    }
}

// What each place must hold; none where some label can't be written.
pub(crate) fn targets<const B: usize>(
    alloc: Global,
    places: &[Place<B>],
    old: &[Slice],
) -> Result<Option<Vec<Target<B>>>, AllocError>
    requires size { IsSectorSize B }
    requires ascend { IsNonDecreasingBy (λ s. s.first) old.now }
    ensures { IfOk result (λ o. MatchOption o (HasNone old.now places.now) (λ v. AreTargets old.now places.now v.items)) }
{
    let mut targets = Vec::new(alloc);
    for k in 0..places.len() {
        let Some(target) = target(&places[k], old) else {
            return Ok(None);
        };
        targets.push(target)?;
    }
    Ok(Some(targets))
}
