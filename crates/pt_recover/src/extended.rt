//! The chain of a lone extended partition, and the sectors that it stands in.

ghost use Rattle.std.specs.Prelude.{◌≡◌, ◌<◌, ◌⊎◌, IfOk, IfErr, OnOk, IfSome, IfNone};
ghost use Rattle.pt_sector.specs.Device.{Blames};
ghost use Rattle.pt_sector.specs.Overlays.{OnlyReads};
ghost use Rattle.pt_sector.specs.Sectors.{IsSectorSize};
ghost use Rattle.pt_mbr.specs.Chain.{span_of, Chain, ChainReads, StandsAt, IsReadBy};
ghost use Rattle.pt_mbr.specs.Records.{extended_of, extent_of};
ghost use Rattle.pt_recover.specs.Denotes.{IsMbr, HasChain, ExtendedReads, IsOutsideDisk, TellsNothing, fault_in, FailedInDisk};
ghost use Rattle.pt_recover.specs.inner.Denotes.{ToldAs, IsChainFault};
ghost use Rattle.pt_recover.specs.Spans.{Adds};

use crate::error::NoTable;
use crate::trace::Trace;
use arrayvec::ArrayVec;
use pt_mbr::{ChainError, Ebr, Extended, Mbr, Record, extended_of, walk_chain};
use pt_members::Ebrs;
use pt_sector::{Disk, Extent, Lba};
use std::alloc::{AllocError, Global};

// Adds the places of extended boot records.
fn trace_chain(trace: &mut Trace, list: &[Ebr]) -> Result<(), AllocError>
    ensures { OnOk result (Adds trace.old trace.new (λ s. StandsAt s list.now)) }
{
    for k in 0..list.len() {
        trace.add_one(list[k].at.0)?;
    }
    Ok(())
}

// Adds the place of what isn't an extended boot record.
fn trace_fault(trace: &mut Trace, fault: &ChainError) -> Result<(), AllocError>
    ensures { OnOk result (Adds trace.old trace.new (λ s. IsReadBy fault.now s)) }
{
    match fault {
        ChainError::NoSignature(at) | ChainError::BadRecord(at) => trace.add_one(at.0),
        _ => Ok(()),
    }
}

// What a fault of the chain is reported as, with the sectors that were read up to it.
fn told_fault(list: &[Ebr], fault: ChainError, trace: &mut Trace) -> NoTable
    ensures told { ToldAs fault result }
    ensures traced { IsOutsideDisk result ⊎ Adds trace.old trace.new (λ s. StandsAt s list.now ⊎ IsReadBy fault s) }
{
    if let ChainError::Device(at) = fault {
        return NoTable::Device(at);
    }
    match trace_chain(trace, list) {
        Ok(()) => {}
        Err(_) => return NoTable::Memory,
    }
    match trace_fault(trace, &fault) {
        Ok(()) => NoTable::Chain(fault),
        Err(_) => NoTable::Memory,
    }
}

// A chain in memory of its own, with its places traced.
fn kept_chain(alloc: Global, list: &[Ebr], trace: &mut Trace) -> Result<Ebrs, AllocError>
    ensures kept { IfOk result (λ e. e ≡ list.now) }
    ensures traced { OnOk result (Adds trace.old trace.new (λ s. StandsAt s list.now)) }
{
    trace_chain(trace, list)?;
    let mut items = Vec::new(alloc);
    items.extend_from_slice(list)?;
    Ok(Ebrs::new(items))
}

// The chain of an extended partition.
fn read_extended<const B: usize, D: Disk<B>>(
    alloc: Global,
    disk: &mut D,
    extent: &Extent,
    trace: &mut Trace,
) -> Result<Ebrs, NoTable>
    requires size { IsSectorSize B }
    ensures same { OnlyReads D.Disk disk.old disk.new }
    ensures blames { Blames fault_in result (D.faults disk.old) (D.faults disk.new) }
    ensures place { D.tells → IfErr result (FailedInDisk (ChainReads (D.told disk.old).seen (span_of extent.now))) }
    ensures ok { D.tells → IfOk result (λ list. Chain (D.told disk.old).seen (span_of extent.now) list) }
    ensures err { D.tells → IfErr result (λ e. IsOutsideDisk e ⊎ IsChainFault (D.told disk.old).seen (span_of extent.now) e) }
    ensures traced { D.tells → OnOk result (Adds trace.old trace.new (ChainReads (D.told disk.old).seen (span_of extent.now))) }
    ensures traced_err { D.tells → IfErr result (λ e. IsOutsideDisk e
        ⊎ Adds trace.old trace.new (ChainReads (D.told disk.old).seen (span_of extent.now))) }
{
    let mut list = ArrayVec::new();
    match walk_chain(disk, extent, &mut list) {
        Ok(()) => {
            let chain = kept_chain(alloc, list.as_slice(), trace)?;
            Ok(chain)
        }
        Err(fault) => Err(told_fault(list.as_slice(), fault, trace)),
    }
}

// The sectors of a record of sector 0; none for one of size 0, which no used record has.
fn extent_at(record: &Record) -> Option<Extent>
    ensures some { IfSome result (λ x. span_of x ≡ extent_of «record».now) }
    ensures none { IfNone result ((extent_of «record».now).last < (extent_of «record».now).first) }
{
    let first = u64::from(record.start);
    let last = (first + u64::from(record.size)).saturating_sub(1);
    Extent::new(Lba(first), Lba(last))
}

/// The chain of the lone extended record of an MBR disk with these records; empty where there is none.
pub(crate) fn read_lone<const B: usize, D: Disk<B>>(
    alloc: Global,
    disk: &mut D,
    mbr: &Mbr,
    trace: &mut Trace,
) -> Result<Ebrs, NoTable>
    requires size { IsSectorSize B }
    requires is_mbr { D.tells → IsMbr (D.told disk.old).seen mbr.now.records }
    ensures same { OnlyReads D.Disk disk.old disk.new }
    ensures blames { Blames fault_in result (D.faults disk.old) (D.faults disk.new) }
    ensures place { D.tells → IfErr result (FailedInDisk (ExtendedReads (D.told disk.old).seen (extended_of mbr.now.records))) }
    ensures ok { D.tells → IfOk result (λ list. HasChain (D.told disk.old).seen (extended_of mbr.now.records) list) }
    ensures err { D.tells → IfErr result (λ e. TellsNothing B (D.told disk.old).seen e) }
    ensures traced { D.tells → OnOk result (Adds trace.old trace.new (ExtendedReads (D.told disk.old).seen (extended_of mbr.now.records))) }
    ensures traced_err { D.tells → IfErr result (λ e. IsOutsideDisk e
        ⊎ Adds trace.old trace.new (ExtendedReads (D.told disk.old).seen (extended_of mbr.now.records))) }
{
    let record = match extended_of(&mbr.records) {
        Extended::Nothing => return Ok(Ebrs::new(Vec::new(alloc))),
        Extended::More(_) => return Err(NoTable::TwoExtended),
        Extended::One(record) => record,
    };
    let extent = match extent_at(&record) {
        Some(extent) => extent,
        None => {
            let first = Lba(u64::from(record.start));
            return Err(NoTable::Chain(ChainError::OutsideExtended(first)));
        }
    };
    read_extended(alloc, disk, &extent, trace)
}
