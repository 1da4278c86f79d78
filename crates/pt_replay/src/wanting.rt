//! All sectors that are known to be wanted, at once.

ghost use Rattle.std.specs.Prelude.{◌≡◌, ◌<◌, [], ◌∷◌, All, None, Ok, Err, IfOk, IfErr, OnOk, MatchResult};
ghost use Rattle.pt_sector.specs.Sectors.{IsSectorSize};
ghost use Rattle.pt_members.specs.Members.{place_of, places_of};
ghost use Rattle.pt_replay.specs.Wanted.{disk_of, known_of, whole, WantedFor};
ghost use Rattle.pt_replay.specs.Replies.{answer, nothing};
ghost use Rattle.pt_replay.specs.inner.Wanted.{GivesList, TakesUp, AreUnknown, IsAlone, ListsWanted};
ghost use Rattle.pt_replay.specs.declared.answers.Status.TheVariants as status;

use crate::answers::{Answer, Status};
use crate::buffers::{counted, put};
use crate::replay::ReplayDisk;
use crate::view::View;
use pt_layout::{Body, NoTable, Slice, Trace, label_places};
use pt_recover::body_of;
use pt_sector::{Disk, Moments};
use std::alloc::{AllocError, Global};

// Takes up a sector, where it isn't known and isn't there yet.
fn take_up<const B: usize>(
    disk: &ReplayDisk<'_, B>,
    wanted: &mut Vec<u64>,
    sector: u64,
) -> Result<(), AllocError>
    requires { IsSectorSize B }
    ensures { OnOk result (TakesUp (known_of disk.now.numbers.now disk.now.known.now sector ≡ None) sector
        wanted.old.items wanted.new.items) }
{
    if disk.is_known(sector) || wanted.contains(&sector) {
        return Ok(());
    }
    wanted.push(sector)?;
    Ok(())
}

// The label places of these slices that aren't known.
fn wanted_among<const B: usize>(
    alloc: Global,
    disk: &ReplayDisk<'_, B>,
    slices: &[Slice],
) -> Result<Vec<u64>, AllocError>
    requires size { IsSectorSize B }
    requires within { All (λ p. place_of p < disk.now.sectors) slices.now }
    ensures { IfOk result (λ wanted. AreUnknown disk.now.sectors disk.now.numbers.now disk.now.known.now slices.now wanted.items) }
{
    let mut wanted = Vec::new(alloc);
    for k in 0..slices.len() {
        let slice = slices[k];
        take_up(disk, &mut wanted, slice.first + 1)?;
    }
    Ok(wanted)
}

// The label places of a body that aren't known.
fn wanted_places<const B: usize>(
    alloc: Global,
    disk: &ReplayDisk<'_, B>,
    body: &Body,
) -> Result<Vec<u64>, AllocError>
    requires size { IsSectorSize B }
    ensures { IfOk result (λ wanted. AreUnknown disk.now.sectors disk.now.numbers.now disk.now.known.now
        (places_of B disk.now.sectors body.now) wanted.items) }
{
    let sectors = disk.sectors();
    let slices = label_places::<B>(alloc, sectors, body)?;
    wanted_among(alloc, disk, &slices)
}

// The same, as an answer.
fn told(wanted: Result<Vec<u64>, AllocError>) -> Result<Vec<u64>, Answer>
    ensures { MatchResult wanted (λ list. result ≡ Ok list) (λ e. result ≡ Err (answer status.Memory nothing)) }
{
    match wanted {
        Ok(wanted) => Ok(wanted),
        Err(_) => Err(Answer::of(Status::Memory)),
    }
}

// One sector.
fn alone(alloc: Global, sector: u64) -> Result<Vec<u64>, AllocError>
    ensures { IfOk result (λ wanted. wanted.items ≡ sector ∷ []) }
{
    let mut wanted = Vec::new(alloc);
    wanted.push(sector)?;
    Ok(wanted)
}

// What is wanted where there is no layout: the sector that couldn't be read, and nothing of a disk that denotes nothing.
fn wanted_by(alloc: Global, why: NoTable) -> Result<Vec<u64>, Answer>
    ensures ok { IfOk result (λ wanted. IsAlone why wanted.items) }
    ensures err { IfErr result (λ a. a ≡ answer status.Memory nothing) }
{
    match why {
        NoTable::Device(at) => told(alone(alloc, at.0)),
        NoTable::Memory => Err(Answer::of(Status::Memory)),
        _ => Ok(Vec::new(alloc)),
    }
}

// All that is known to be wanted: the label places of the body that the disk denotes, or the sector that has to be known
// before there is one.
fn wanted_of<const B: usize>(
    alloc: Global,
    disk: &mut ReplayDisk<'_, B>,
) -> Result<Vec<u64>, Answer>
    requires size { IsSectorSize B }
    ensures ok { IfOk result (λ wanted. ListsWanted B disk.old.sectors disk.old.numbers.now disk.old.known.now
        (whole disk.old.sectors disk.old.numbers.now disk.old.known.now disk.old.elsewhere.items) wanted.items) }
    ensures err { IfErr result (λ a. a ≡ answer status.Memory nothing) }
{
    let mut trace = Trace::new(alloc);
    match body_of::<B, _>(alloc, disk, &None, &mut trace) {
        Ok(body) => told(wanted_places(alloc, disk, &body)),
        Err(why) => wanted_by(alloc, why),
    }
}

// Puts sectors into the caller's buffer, or says how much room they take.
fn put_sectors(list: &[u64], sectors: &mut [u64]) -> Answer
    ensures gives { GivesList list.now sectors.old sectors.new result.status result.reply }
{
    if list.is_empty() {
        return Answer::of(Status::Done);
    }
    if list.len() > sectors.len() {
        return counted(Status::Room, list.len(), 0);
    }
    put(sectors, list);
    let mut answer = counted(Status::Want, list.len(), 0);
    answer.reply.sector = list[0];
    answer
}

/// All sectors that are known to be wanted for what a view's disk denotes, whatever stands elsewhere, in the caller's buffer.
pub fn wanted<const B: usize>(
    alloc: Global,
    view: &View<'_>,
    sectors: &mut [u64],
    elsewhere: Moments<[u8; B]>,
) -> Answer
    requires size { IsSectorSize B }
    ensures says { WantedFor B view.now (disk_of B view.now elsewhere.entry.items) sectors.old sectors.new result.status result.reply }
{
    let Some(mut disk) = ReplayDisk::<B>::new(alloc, view, elsewhere) else {
        return Answer::bad_argument(2);
    };
    match wanted_of(alloc, &mut disk) {
        Ok(list) => put_sectors(list.as_slice(), sectors),
        Err(answer) => answer,
    }
}
