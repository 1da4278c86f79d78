//! The table of a GPT disk, and the sectors that decide it.

ghost use Rattle.std.specs.Prelude.{◌≡◌, ◌+◌, ◌-◌, ◌≤◌, ◌⊎◌, IfOk, IfErr, OnOk};
ghost use Rattle.pt_sector.specs.Device.{Blames};
ghost use Rattle.pt_sector.specs.Overlays.{OnlyReads, FailedIn, fault_of};
ghost use Rattle.pt_sector.specs.Sectors.{IsSectorSize};
ghost use Rattle.pt_gpt.specs.Copies.{counted, IsOutsideCopy, fault_in as fault_in_copy, FailedInCopy, IsPlaced, InArray, Copy, CopyWith};
ghost use Rattle.pt_gpt.specs.Copies.{SideReads, TellsFault, HasRoom, AreEntries};
ghost use Rattle.pt_recover.specs.Denotes.{TableReads, EitherIs};
ghost use Rattle.pt_recover.specs.inner.Denotes.{SideIs};
ghost use Rattle.pt_recover.specs.Spans.{Adds};

use crate::trace::Trace;
use pt_gpt::{
    CopyError, Header, LastArray, Side, Table, counted_sectors, header_at, read_head, read_table,
};
use pt_sector::{Disk, Failure};
use std::alloc::{AllocError, Global};

/// The copy of a GPT that decides what a disk denotes.
#[derive(Drop)]
pub struct FoundCopy {
    /// Its header.
    pub header: Header,
    /// Its table.
    pub table: Table,
    /// Why there is no primary copy, where this is the backup; none of the primary copy.
    pub no_primary: Option<CopyError>,
}

// Adds the counted sectors of the array that a header tells of.
fn trace_array<const B: usize>(
    header: &Header,
    side: Side,
    sectors: u64,
    trace: &mut Trace,
) -> Result<(), AllocError>
    requires size { IsSectorSize B }
    requires room { HasRoom B sectors }
    requires placed { IsPlaced B side sectors header.now }
    ensures { OnOk result (Adds trace.old trace.new (InArray B header.now)) }
{
    let count = counted_sectors::<B>(header.count);
    trace.add(header.array, header.array + (count - 1))
}

// A side's copy, header and table, with the sectors that decide the side added to the trace. Its array isn't summed where it has the
// bytes of the last one.
fn traced_copy<const B: usize, D: Disk<B>>(
    alloc: Global,
    disk: &mut D,
    side: Side,
    trace: &mut Trace,
    last: &mut LastArray,
) -> Result<(Header, Table), CopyError>
    requires size { IsSectorSize B }
    requires room { HasRoom B (D.count disk.old) }
    ensures same { OnlyReads D.Disk disk.old disk.new }
    ensures blames { Blames fault_in_copy result (D.faults disk.old) (D.faults disk.new) }
    ensures place { D.tells → IfErr result (FailedInCopy (SideReads B (D.told disk.old).seen side)) }
    ensures ok { D.tells → IfOk result (λ c. Copy B (D.told disk.old).seen side c.1) }
    ensures with { D.tells → IfOk result (λ c. CopyWith B (D.told disk.old).seen side c.0 c.1) }
    ensures last { IfOk result (λ c. AreEntries c.1.entries last.new) }
    ensures err { D.tells → IfErr result (λ e. TellsFault B (D.told disk.old).seen side e) }
    ensures traced { D.tells → OnOk result (Adds trace.old trace.new (SideReads B (D.told disk.old).seen side)) }
    ensures traced_err { D.tells → IfErr result (λ e. IsOutsideCopy e
        ⊎ Adds trace.old trace.new (SideReads B (D.told disk.old).seen side)) }
{
    let sectors = disk.sectors();
    trace.add_one(header_at(side, sectors))?;
    let header = read_head(disk, side)?;
    trace_array::<B>(&header, side, sectors, trace)?;
    let table = read_table(alloc, disk, side, &header, last)?;
    Ok((header, table))
}

// A side's copy, or the rule that it breaks, with the sectors that decide the side added to the trace.
fn read_side<const B: usize, D: Disk<B>>(
    alloc: Global,
    disk: &mut D,
    side: Side,
    trace: &mut Trace,
    last: &mut LastArray,
) -> Result<Result<(Header, Table), CopyError>, Failure>
    requires size { IsSectorSize B }
    requires room { HasRoom B (D.count disk.old) }
    ensures same { OnlyReads D.Disk disk.old disk.new }
    ensures blames { Blames fault_of result (D.faults disk.old) (D.faults disk.new) }
    ensures place { D.tells → IfErr result (FailedIn (SideReads B (D.told disk.old).seen side)) }
    ensures ok { D.tells → IfOk result (SideIs B (D.told disk.old).seen side) }
    ensures last { IfOk result (λ r. IfOk r (λ c. AreEntries c.1.entries last.new)) }
    ensures traced { D.tells → OnOk result (Adds trace.old trace.new (SideReads B (D.told disk.old).seen side)) }
{
    let e = match traced_copy(alloc, disk, side, trace, last) {
        Ok(copy) => return Ok(Ok(copy)),
        Err(e) => e,
    };
    match e.failure() {
        Some(failure) => Err(failure),
        None => Ok(Err(e)),
    }
}

/// The copy that decides what a disk with room for a GPT denotes: the primary one, or else the backup; or the first fault of each. It is
/// the walk over both sides of a recovery and of a survey.
///
/// The sectors that decide the table are added to the trace: where the primary copy exists, the backup isn't read.
pub fn read_either<const B: usize, D: Disk<B>>(
    alloc: Global,
    disk: &mut D,
    trace: &mut Trace,
    last: &mut LastArray,
) -> Result<Result<FoundCopy, (CopyError, CopyError)>, Failure>
    requires size { IsSectorSize B }
    requires room { HasRoom B (D.count disk.old) }
    ensures same { OnlyReads D.Disk disk.old disk.new }
    ensures blames { Blames fault_of result (D.faults disk.old) (D.faults disk.new) }
    ensures place { D.tells → IfErr result (FailedIn (TableReads B (D.told disk.old).seen)) }
    ensures ok { D.tells → IfOk result (EitherIs B (D.told disk.old).seen) }
    ensures last { IfOk result (λ r. IfOk r (λ c. AreEntries c.table.entries last.new)) }
    ensures traced { D.tells → OnOk result (Adds trace.old trace.new (TableReads B (D.told disk.old).seen)) }
{
    let e = match read_side(alloc, disk, Side::Primary, trace, last)? {
        Ok((header, table)) => {
            return Ok(Ok(FoundCopy {
                header,
                table,
                no_primary: None,
            }));
        }
        Err(e) => e,
    };
    match read_side(alloc, disk, Side::Backup, trace, last)? {
        Ok((header, table)) => Ok(Ok(FoundCopy {
            header,
            table,
            no_primary: Some(e),
        })),
        Err(f) => Ok(Err((e, f))),
    }
}
