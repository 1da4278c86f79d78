//! Labels, each from its slice's label place.

ghost use Rattle.std.specs.Prelude.{◌≡◌, ◌<◌, ◌++◌, All, IfOk, IfErr, OnOk};
ghost use Rattle.pt_sector.specs.Device.{Blames};
ghost use Rattle.pt_sector.specs.Overlays.{OnlyReads, FailedIn, fault_of};
ghost use Rattle.pt_sector.specs.Sectors.{IsSectorSize, sector};
ghost use Rattle.pt_members.specs.Members.{place_of, IsPlace};
ghost use Rattle.pt_recover.specs.Denotes.{LabelsAre};
ghost use Rattle.pt_recover.specs.inner.Denotes.{labelled, LabelIs};
ghost use Rattle.pt_recover.specs.Spans.{Adds};

use crate::trace::Trace;
use pt_bsd::{Label, decode_label};
use pt_members::{Labelled, Labels, Slice};
use pt_sector::{Disk, Failure, Lba, Sector, read_sector};
use std::alloc::{AllocError, Global};

fn label_of<const B: usize>(sector: &Sector<B>, slice: Slice) -> Option<Label>
    requires { IsSectorSize B }
    ensures { LabelIs slice sector.now result }
{
    match decode_label(sector, slice.first, slice.len) {
        Ok(label) => Some(label),
        Err(_) => None,
    }
}

// The label of a slice, and its place into the trace.
fn read_label<const B: usize, D: Disk<B>>(
    disk: &mut D,
    slice: Slice,
    trace: &mut Trace,
) -> Result<Option<Label>, Failure>
    requires size { IsSectorSize B }
    requires within { place_of slice < D.count disk.old }
    ensures same { OnlyReads D.Disk disk.old disk.new }
    ensures blames { Blames fault_of result (D.faults disk.old) (D.faults disk.new) }
    ensures place { IfErr result (FailedIn (λ s. s ≡ place_of slice)) }
    ensures ok { D.tells → IfOk result (λ o. LabelIs slice (sector (D.told disk.old).seen (place_of slice)) o) }
    ensures traced { OnOk result (Adds trace.old trace.new (λ s. s ≡ place_of slice)) }
{
    let at = slice.first + 1;
    trace.add_one(at)?;
    let mut sector = [0; B];
    read_sector(disk, Lba(at), &mut sector)?;
    Ok(label_of(&sector, slice))
}

fn push_label(
    labels: &mut Vec<Labelled>,
    number: u64,
    found: Option<Label>,
) -> Result<(), AllocError>
    ensures { OnOk result (labels.new.items ≡ labels.old.items ++ labelled number found) }
{
    if let Some(label) = found {
        labels.push(Labelled { number, label })?;
    }
    Ok(())
}

/// The labels at some slices' label places, in the slices' order, with those places added to the trace; a place without a
/// label for its slice gives none.
pub fn traced_labels<const B: usize, D: Disk<B>>(
    alloc: Global,
    disk: &mut D,
    slices: &[Slice],
    trace: &mut Trace,
) -> Result<Labels, Failure>
    requires size { IsSectorSize B }
    requires within { All (λ p. place_of p < D.count disk.old) slices.now }
    ensures same { OnlyReads D.Disk disk.old disk.new }
    ensures blames { Blames fault_of result (D.faults disk.old) (D.faults disk.new) }
    ensures place { IfErr result (FailedIn (IsPlace slices.now)) }
    ensures ok { D.tells → IfOk result (λ ls. LabelsAre (D.told disk.old).seen slices.now ls) }
    ensures traced { OnOk result (Adds trace.old trace.new (IsPlace slices.now)) }
{
    let mut labels = Vec::new(alloc);
    for k in 0..slices.len() {
        let slice = slices[k];
        let found = read_label(disk, slice, trace)?;
        push_label(&mut labels, slice.number, found)?;
    }
    Ok(Labels::new(labels))
}
