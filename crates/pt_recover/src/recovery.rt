//! Recovery: the layout that a disk denotes.

ghost use Rattle.std.specs.Prelude.{◌≡◌, ◌⊎◌, OnOk, IfOk, IfErr, IfSome, Some};
ghost use Rattle.pt_sector.specs.Device.{Blames};
ghost use Rattle.pt_sector.specs.Overlays.{FailedIn, OnlyReads, fault_of};
ghost use Rattle.pt_sector.specs.Sectors.{IsSectorSize};
ghost use Rattle.pt_recover.specs.Denotes.{Denotes, Reads, IsMbr, Numbers, IsOutsideDisk, TellsNothing, fault_in, FailedInDisk};
ghost use Rattle.pt_recover.specs.Denotes.{FoundIs, IsTraceOf};
ghost use Rattle.pt_recover.specs.Spans.{Adds};

use crate::body::body_after;
use crate::error::{NoTable, Reason};
use crate::labels::traced_labels;
use crate::numbers::body_numbers;
use crate::trace::Trace;
use pt_gpt::LastArray;
use pt_mbr::Mbr;
use pt_members::{Layout, label_places};
use pt_sector::{Disk, Failure};
use std::alloc::Global;

// The layout that the disk denotes, with the sectors that decide it added to the trace.
fn recover_into<const B: usize, D: Disk<B>>(
    alloc: Global,
    disk: &mut D,
    known: &Option<Mbr>,
    trace: &mut Trace,
    last: &mut LastArray,
) -> Result<Layout, NoTable>
    requires size { IsSectorSize B }
    requires known { D.tells → IfSome known.now (λ m. IsMbr (D.told disk.old).seen m.records) }
    ensures same { OnlyReads D.Disk disk.old disk.new }
    ensures blames { Blames fault_in result (D.faults disk.old) (D.faults disk.new) }
    ensures place { D.tells → IfErr result (FailedInDisk (Reads B (D.told disk.old).seen)) }
    ensures ok { D.tells → IfOk result (λ o. Denotes B (D.told disk.old).seen (Some o)) }
    ensures numbers { IfOk result Numbers }
    ensures err { D.tells → IfErr result (λ e. TellsNothing B (D.told disk.old).seen e) }
    ensures traced { D.tells → OnOk result (Adds trace.old trace.new (Reads B (D.told disk.old).seen)) }
    ensures traced_err { D.tells → IfErr result (λ e. IsOutsideDisk e ⊎ Adds trace.old trace.new (Reads B (D.told disk.old).seen)) }
{
    let sectors = disk.sectors();
    let body = body_after(alloc, disk, known, trace, last)?;
    body_numbers(&body);
    let places = label_places::<B>(alloc, sectors, &body)?;
    let labels = traced_labels(alloc, disk, &places, trace)?;
    Ok(Layout {
        sectors,
        body,
        labels,
    })
}

/// The layout that the disk denotes, or why there is none.
pub fn recover<const B: usize, D: Disk<B>>(alloc: Global, disk: &mut D) -> Result<Layout, NoTable>
    requires size { IsSectorSize B }
    ensures same { OnlyReads D.Disk disk.old disk.new }
    ensures blames { Blames fault_in result (D.faults disk.old) (D.faults disk.new) }
    ensures place { D.tells → IfErr result (FailedInDisk (Reads B (D.told disk.old).seen)) }
    ensures ok { D.tells → IfOk result (λ o. Denotes B (D.told disk.old).seen (Some o)) }
    ensures numbers { IfOk result Numbers }
    ensures err { D.tells → IfErr result (λ e. TellsNothing B (D.told disk.old).seen e) }
{
    recover_traced(alloc, disk).0
}

/// The same, with the sectors that decide it. After `Device` and `Memory` what the trace holds is open.
pub fn recover_traced<const B: usize, D: Disk<B>>(
    alloc: Global,
    disk: &mut D,
) -> (Result<Layout, NoTable>, Trace)
    requires size { IsSectorSize B }
    ensures same { OnlyReads D.Disk disk.old disk.new }
    ensures blames { Blames fault_in result.0 (D.faults disk.old) (D.faults disk.new) }
    ensures place { D.tells → IfErr result.0 (FailedInDisk (Reads B (D.told disk.old).seen)) }
    ensures ok { D.tells → IfOk result.0 (λ o. Denotes B (D.told disk.old).seen (Some o)) }
    ensures numbers { IfOk result.0 Numbers }
    ensures err { D.tells → IfErr result.0 (λ e. TellsNothing B (D.told disk.old).seen e) }
    ensures traced { D.tells → OnOk result.0 (IsTraceOf B (D.told disk.old).seen result.1) }
    ensures traced_err { D.tells → IfErr result.0 (λ e. IsOutsideDisk e ⊎ IsTraceOf B (D.told disk.old).seen result.1) }
{
    let mut trace = Trace::new(alloc);
    let mut last = LastArray::new(alloc);
    let answer = recover_into(alloc, disk, &None, &mut trace, &mut last);
    (answer, trace)
}

/// What a reading of the disk finds, the layout that it denotes or why it denotes nothing, with the sectors that decide it.
///
/// Sector 0 may have been read before: `known` has the records of an MBR disk, whose sector 0 isn't read again then, though the trace
/// has it. With none it is read. An array isn't summed that has the bytes of the last one.
pub fn read_layout<const B: usize, D: Disk<B>>(
    alloc: Global,
    disk: &mut D,
    known: &Option<Mbr>,
    last: &mut LastArray,
) -> Result<(Result<Layout, Reason>, Trace), Failure>
    requires size { IsSectorSize B }
    requires known { D.tells → IfSome known.now (λ m. IsMbr (D.told disk.old).seen m.records) }
    ensures same { OnlyReads D.Disk disk.old disk.new }
    ensures blames { Blames fault_of result (D.faults disk.old) (D.faults disk.new) }
    ensures place { D.tells → IfErr result (FailedIn (Reads B (D.told disk.old).seen)) }
    ensures found { D.tells → IfOk result (λ r. FoundIs B (D.told disk.old).seen r.0) }
    ensures numbers { IfOk result (λ r. IfOk r.0 Numbers) }
    ensures traced { D.tells → IfOk result (λ r. IsTraceOf B (D.told disk.old).seen r.1) }
{
    let mut trace = Trace::new(alloc);
    match recover_into(alloc, disk, known, &mut trace, last) {
        Ok(layout) => Ok((Ok(layout), trace)),
        Err(error) => {
            let reason = error.reason()?;
            Ok((Err(reason), trace))
        }
    }
}
