//! What stands in a table: the records and the chain of an MBR disk, or the table of a GPT disk.

ghost use Rattle.std.specs.Prelude.{◌≡◌, ◌<◌, ◌⊎◌, IfOk, IfErr, IfSome, OnOk};
ghost use Rattle.pt_sector.specs.Device.{Blames};
ghost use Rattle.pt_sector.specs.Overlays.{OnlyReads, read_of};
ghost use Rattle.pt_sector.specs.Sectors.{IsSectorSize, sector};
ghost use Rattle.pt_recover.specs.Denotes.{IsMbrDisk, IsMbr, BodyIs, BodyReads, IsOutsideDisk, TellsNothing, fault_in, FailedInDisk};
ghost use Rattle.pt_recover.specs.Denotes.{RecordsAre};
ghost use Rattle.pt_recover.specs.inner.Denotes.{RestReads};
ghost use Rattle.pt_recover.specs.Spans.{Adds};

use crate::error::NoTable;
use crate::extended::read_lone;
use crate::tables::read_either;
use crate::trace::Trace;
use pt_gpt::{LastArray, has_room};
use pt_mbr::{Mbr, bears_protective, decode_mbr};
use pt_members::Body;
use pt_sector::{Disk, FailedRead, Lba, Sector, read_sector};
use std::alloc::Global;

/// The records of a sector 0 of an MBR disk; none of another sector.
pub fn records_of<const B: usize>(sector: &Sector<B>) -> Option<Mbr>
    requires { IsSectorSize B }
    ensures { RecordsAre sector.now result }
{
    let mbr = match decode_mbr(sector) {
        Some(mbr) => mbr,
        None => return None,
    };
    if bears_protective(sector) {
        return None;
    }
    Some(mbr)
}

// The records of sector 0 of an MBR disk; none of a disk that isn't one. Where they are known, it isn't read.
fn read_records<const B: usize, D: Disk<B>>(
    disk: &mut D,
    known: &Option<Mbr>,
) -> Result<Option<Mbr>, FailedRead>
    requires size { IsSectorSize B }
    requires some { 0 < D.count disk.old }
    requires known { D.tells → IfSome known.now (λ m. IsMbr (D.told disk.old).seen m.records) }
    ensures same { OnlyReads D.Disk disk.old disk.new }
    ensures blames { Blames read_of result (D.faults disk.old) (D.faults disk.new) }
    ensures place { IfErr result (λ e. e.0.0 ≡ 0) }
    ensures ok { D.tells → IfOk result (RecordsAre (sector (D.told disk.old).seen 0)) }
{
    if let Some(mbr) = known {
        return Ok(Some(*mbr));
    }
    let mut sector = [0; B];
    read_sector(disk, Lba(0), &mut sector)?;
    Ok(records_of(&sector))
}

// The table of a disk that isn't an MBR disk.
fn read_gpt<const B: usize, D: Disk<B>>(
    alloc: Global,
    disk: &mut D,
    trace: &mut Trace,
    last: &mut LastArray,
) -> Result<Body, NoTable>
    requires size { IsSectorSize B }
    requires no_mbr { D.tells → ¬ IsMbrDisk (D.told disk.old).seen }
    ensures same { OnlyReads D.Disk disk.old disk.new }
    ensures blames { Blames fault_in result (D.faults disk.old) (D.faults disk.new) }
    ensures place { D.tells → IfErr result (FailedInDisk (RestReads B (D.told disk.old).seen)) }
    ensures ok { D.tells → IfOk result (λ y. BodyIs B (D.told disk.old).seen y) }
    ensures err { D.tells → IfErr result (λ e. TellsNothing B (D.told disk.old).seen e) }
    ensures traced { D.tells → OnOk result (Adds trace.old trace.new (RestReads B (D.told disk.old).seen)) }
    ensures traced_err { D.tells → IfErr result (λ e. IsOutsideDisk e ⊎ Adds trace.old trace.new (RestReads B (D.told disk.old).seen)) }
{
    let sectors = disk.sectors();
    if !has_room::<B>(sectors) {
        return Err(NoTable::TooSmall);
    }
    match read_either(alloc, disk, trace, last)? {
        Ok(found) => Ok(Body::Gpt(found.table)),
        Err((primary, backup)) => Err(NoTable::NoCopy(primary, backup)),
    }
}

// The records and the chain of an MBR disk.
fn read_mbr<const B: usize, D: Disk<B>>(
    alloc: Global,
    disk: &mut D,
    mbr: &Mbr,
    trace: &mut Trace,
) -> Result<Body, NoTable>
    requires size { IsSectorSize B }
    requires is_mbr { D.tells → IsMbr (D.told disk.old).seen mbr.now.records }
    ensures same { OnlyReads D.Disk disk.old disk.new }
    ensures blames { Blames fault_in result (D.faults disk.old) (D.faults disk.new) }
    ensures place { D.tells → IfErr result (FailedInDisk (RestReads B (D.told disk.old).seen)) }
    ensures ok { D.tells → IfOk result (λ y. BodyIs B (D.told disk.old).seen y) }
    ensures err { D.tells → IfErr result (λ e. TellsNothing B (D.told disk.old).seen e) }
    ensures traced { D.tells → OnOk result (Adds trace.old trace.new (RestReads B (D.told disk.old).seen)) }
    ensures traced_err { D.tells → IfErr result (λ e. IsOutsideDisk e ⊎ Adds trace.old trace.new (RestReads B (D.told disk.old).seen)) }
{
    let chain = read_lone(alloc, disk, mbr, trace)?;
    Ok(Body::Mbr {
        records: mbr.records,
        chain,
    })
}

/// The body that the disk denotes, a layout without its labels, with the sectors that decide it added to the trace. Where
/// the records of an MBR disk are known, sector 0 isn't read again. After `Device` and `Memory` what the trace holds is
/// open.
pub fn body_of<const B: usize, D: Disk<B>>(
    alloc: Global,
    disk: &mut D,
    known: &Option<Mbr>,
    trace: &mut Trace,
) -> Result<Body, NoTable>
    requires size { IsSectorSize B }
    requires known { D.tells → IfSome known.now (λ m. IsMbr (D.told disk.old).seen m.records) }
    ensures same { OnlyReads D.Disk disk.old disk.new }
    ensures blames { Blames fault_in result (D.faults disk.old) (D.faults disk.new) }
    ensures place { D.tells → IfErr result (FailedInDisk (BodyReads B (D.told disk.old).seen)) }
    ensures ok { D.tells → IfOk result (λ y. BodyIs B (D.told disk.old).seen y) }
    ensures err { D.tells → IfErr result (λ e. TellsNothing B (D.told disk.old).seen e) }
    ensures traced { D.tells → OnOk result (Adds trace.old trace.new (BodyReads B (D.told disk.old).seen)) }
    ensures traced_err { D.tells → IfErr result (λ e. IsOutsideDisk e ⊎ Adds trace.old trace.new (BodyReads B (D.told disk.old).seen)) }
{
    let mut last = LastArray::new(alloc);
    body_after(alloc, disk, known, trace, &mut last)
}

/// The same, where an array isn't summed that has the bytes of the last one.
pub(crate) fn body_after<const B: usize, D: Disk<B>>(
    alloc: Global,
    disk: &mut D,
    known: &Option<Mbr>,
    trace: &mut Trace,
    last: &mut LastArray,
) -> Result<Body, NoTable>
    requires size { IsSectorSize B }
    requires known { D.tells → IfSome known.now (λ m. IsMbr (D.told disk.old).seen m.records) }
    ensures same { OnlyReads D.Disk disk.old disk.new }
    ensures blames { Blames fault_in result (D.faults disk.old) (D.faults disk.new) }
    ensures place { D.tells → IfErr result (FailedInDisk (BodyReads B (D.told disk.old).seen)) }
    ensures ok { D.tells → IfOk result (λ y. BodyIs B (D.told disk.old).seen y) }
    ensures err { D.tells → IfErr result (λ e. TellsNothing B (D.told disk.old).seen e) }
    ensures traced { D.tells → OnOk result (Adds trace.old trace.new (BodyReads B (D.told disk.old).seen)) }
    ensures traced_err { D.tells → IfErr result (λ e. IsOutsideDisk e ⊎ Adds trace.old trace.new (BodyReads B (D.told disk.old).seen)) }
{
    if disk.sectors() == 0 {
        return Err(NoTable::TooSmall);
    }
    trace.add_one(0)?;
    match read_records(disk, known)? {
        Some(mbr) => read_mbr(alloc, disk, &mbr, trace),
        None => read_gpt(alloc, disk, trace, last),
    }
}
