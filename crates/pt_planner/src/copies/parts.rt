//! The parts of the phases: a header, an array, the whole backup copy, and a single write.

ghost use Rattle.std.specs.Prelude.{◌≡◌, ◌+◌, ◌-◌, ◌*◌, ◌<◌, ◌≤◌, ◌^◌, ◌++◌, length, List, Option, IfOk, OnOk};
ghost use Rattle.pt_sector.specs.Sectors.{IsSectorSize};
ghost use Rattle.pt_apply.specs.Plans.{writes_of};
ghost use Rattle.pt_gpt.specs.Copies.{array_len, AllFit, HasRoom, IsEncoded};
ghost use Rattle.pt_gpt.specs.declared.entry.Entry.{Entry as EntryValue};
ghost use Rattle.pt_cases.specs.Writes.{other_side as opposite, header_of, IsWrittenHeader, array_writes, one_write};
ghost use Rattle.pt_planner.specs.inner.Phases.{AddsBackup};

use pt_apply::Write;
use pt_gpt::{
    ENTRY_SIZE, EncodedArray, Header, Side, Table, array_at, array_sectors, encode_header,
    header_at,
};
use pt_sector::{Lba, Sector};
use std::alloc::{AllocError, Global};

fn other_side(side: Side) -> Side
    ensures { result ≡ opposite side }
{
    match side {
        Side::Primary => Side::Backup,
        Side::Backup => Side::Primary,
    }
}

/// The sector of a side's header for the table, by the table's array.
pub(crate) fn header_sector<const B: usize>(
    sectors: u64,
    table: &Table,
    array: &EncodedArray,
    side: Side,
) -> Sector<B>
    requires size { IsSectorSize B }
    requires room { HasRoom B sectors }
    requires few { length table.now.entries ≤ 128 }
    requires array { IsEncoded table.now.entries array.now }
    ensures bytes { IsWrittenHeader B (header_of B sectors table.now side) result }
    ensures fit { AllFit table.now.entries }
{
    encode_header(&Header {
        my: header_at(side, sectors),
        alternate: header_at(other_side(side), sectors),
        first: table.first,
        last: table.last,
        disk: table.disk,
        array: array_at::<B>(side, sectors),
        count: table.entries.len() as u32,
        entry_size: ENTRY_SIZE as u32,
        array_crc: array.crc,
    })
}

/// A phase of one write.
pub(crate) fn single<const B: usize>(
    alloc: Global,
    lba: u64,
    bytes: &Sector<B>,
) -> Result<Vec<Write<B>>, AllocError>
    requires { IsSectorSize B }
    ensures { IfOk result (λ ws. writes_of ws.items ≡ one_write lba bytes.now) }
{
    let mut writes = Vec::new(alloc);
    writes.push(Write {
        lba: Lba(lba),
        bytes: *bytes,
    })?;
    Ok(writes)
}

/// Adds the writes of an array from a sector on.
pub(crate) fn push_array<const B: usize>(
    writes: &mut Vec<Write<B>>,
    array: &EncodedArray,
    at: u64,
) -> Result<(), AllocError>
    requires size { IsSectorSize B }
    requires room { at + array_len B < 2 ^ 64 }
    requires long { length array.now.bytes.items ≡ 16384 }
    ensures { OnOk result ((es : List (Option EntryValue)) → IsEncoded es array.now
        → writes_of writes.new.items ≡ writes_of writes.old.items ++ array_writes B es at (array_len B)) }
{
    let (sectors, _) = array.bytes.as_chunks::<B>();
    writes.reserve(sectors.len())?;
    for k in 0..sectors.len() {
        writes.push_reserved(Write {
            lba: Lba(at + k as u64),
            bytes: sectors[k],
        });
    }
    Ok(())
}

/// Adds the backup copy: its array, and its header in the last sector.
pub(crate) fn push_backup<const B: usize>(
    writes: &mut Vec<Write<B>>,
    sectors: u64,
    table: &Table,
    array: &EncodedArray,
) -> Result<(), AllocError>
    requires size { IsSectorSize B }
    requires room { HasRoom B sectors }
    requires few { length table.now.entries ≤ 128 }
    requires array { IsEncoded table.now.entries array.now }
    ensures { OnOk result (AddsBackup B sectors table.now (writes_of writes.old.items) (writes_of writes.new.items)) }
{
    writes.reserve(array_sectors::<B>() as usize + 1)?;
    push_array(writes, array, array_at::<B>(Side::Backup, sectors))?;
    writes.push(Write {
        lba: Lba(sectors - 1),
        bytes: header_sector(sectors, table, array, Side::Backup),
    })?;
    Ok(())
}
