//! Label places that bear the magic of a label and hold none.

ghost use Rattle.std.specs.Prelude.{◌≡◌, ◌<◌, ◌↔◌, IsTrue, IfOk, IfErr, OnOk, All};
ghost use Rattle.pt_sector.specs.Device.{Blames};
ghost use Rattle.pt_sector.specs.Overlays.{OnlyReads, FailedIn, fault_of, read_of};
ghost use Rattle.pt_sector.specs.Sectors.{IsSectorSize};
ghost use Rattle.pt_members.specs.Members.{place_of, places_of, IsPlace};
ghost use Rattle.pt_members.specs.Tables.{NextSectorIs};
ghost use Rattle.pt_layout.specs.inner.Surveys.{ForeignBytes, ForeignOf, ForeignAmong, ForeignIs};

use pt_bsd::{bears_magic, decode_label};
use pt_members::{Layout, Slice, label_places, least};
use pt_path::Path;
use pt_sector::{Disk, FailedRead, Failure, Lba, Sector, read_sector};
use std::alloc::Global;

fn is_foreign<const B: usize>(sector: &Sector<B>, slice: Slice) -> bool
    requires { IsSectorSize B }
    ensures { IsTrue result ↔ ForeignBytes slice sector.now }
{
    if !bears_magic(sector) {
        return false;
    }
    match decode_label(sector, slice.first, slice.len) {
        Ok(_) => false,
        Err(_) => true,
    }
}

// The number of a slice, where this is its label place and foreign.
fn number_if_foreign<const B: usize>(sector: &Sector<B>, slice: Slice) -> Option<u64>
    requires { IsSectorSize B }
    ensures { NextSectorIs (λ n. (n ≡ slice.number) × ForeignBytes slice sector.now) 0 result }
{
    if is_foreign(sector, slice) {
        Some(slice.number)
    } else {
        None
    }
}

// The number of a slice, where its label place is foreign.
fn foreign_number<const B: usize, D: Disk<B>>(
    disk: &mut D,
    slice: Slice,
) -> Result<Option<u64>, FailedRead>
    requires size { IsSectorSize B }
    requires within { place_of slice < D.count disk.old }
    ensures same { OnlyReads D.Disk disk.old disk.new }
    ensures blames { Blames read_of result (D.faults disk.old) (D.faults disk.new) }
    ensures place { IfErr result (λ e. e.0.0 ≡ place_of slice) }
    ensures ok { D.tells → IfOk result (NextSectorIs (ForeignOf (D.told disk.old).seen slice) 0) }
{
    let at = Lba(slice.first + 1);
    let mut sector = [0; B];
    read_sector(disk, at, &mut sector)?;
    Ok(number_if_foreign(&sector, slice))
}

// The lowest number of some slices whose label places are foreign.
fn lowest_foreign<const B: usize, D: Disk<B>>(
    disk: &mut D,
    slices: &[Slice],
) -> Result<Option<u64>, FailedRead>
    requires size { IsSectorSize B }
    requires within { All (λ p. place_of p < D.count disk.old) slices.now }
    ensures same { OnlyReads D.Disk disk.old disk.new }
    ensures blames { Blames read_of result (D.faults disk.old) (D.faults disk.new) }
    ensures place { IfErr result (λ e. IsPlace slices.now e.0.0) }
    ensures ok { D.tells → IfOk result (NextSectorIs (ForeignAmong (D.told disk.old).seen slices.now) 0) }
{
    let mut lowest = None;
    for k in 0..slices.len() {
        let number = foreign_number(disk, slices[k])?;
        lowest = least(lowest, number);
    }
    Ok(lowest)
}

/// The first slice of a layout whose label place is foreign.
pub(crate) fn first_foreign<const B: usize, D: Disk<B>>(
    alloc: Global,
    disk: &mut D,
    layout: &Layout,
) -> Result<Option<Path>, Failure>
    requires size { IsSectorSize B }
    requires sectors { D.tells → layout.now.sectors ≡ D.count disk.old }
    ensures same { OnlyReads D.Disk disk.old disk.new }
    ensures blames { Blames fault_of result (D.faults disk.old) (D.faults disk.new) }
    ensures place { D.tells → IfErr result (FailedIn (IsPlace (places_of B (D.count disk.old) layout.now.body))) }
    ensures ok { D.tells → IfOk result (ForeignIs B (D.told disk.old).seen layout.now) }
{
    let sectors = disk.sectors();
    let places = label_places::<B>(alloc, sectors, &layout.body)?;
    let lowest = lowest_foreign(disk, &places)?;
    match lowest {
        Some(number) => Ok(Some(Path {
            number,
            letter: None,
        })),
        None => Ok(None),
    }
}
