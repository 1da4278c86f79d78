//! The core for callers in C (docs/c.md and include/ptab.h): what a disk denotes, also as text, whether it is healthy, where a
//! partition's sectors are, which sectors are free, and checked plans of edits and repairs, of the layout of another disk, and of
//! the table that a text says.
//!
//! The caller reads and writes the disk; a call gets the sectors that were read so far, and ends with an answer or
//! with the number of one more sector that it wants.
//!
//! What an export answers of a disk holds of each disk of which the view is a part: `disk` is a ghost value, and no
//! argument.
#![tactic(auto)]

ghost use Rattle.std.specs.Prelude.{◌≡◌, pos};
ghost use Rattle.pt_guid.specs.Guids.{text_of};
ghost use Rattle.pt_replay.specs.Replies.{IsTypeCode};
ghost use Rattle.pt_replay.specs.Given.{buffers};
ghost use Rattle.pt_sector.specs.Sectors.{Sectors};
ghost use Rattle.pt_replay.specs.Wanted.{IsPartOf, Disks, OfSize, NoBuffers, WantedFor};
ghost use Rattle.pt_replay.specs.Listed.{listing};
ghost use Rattle.pt_replay.specs.Claims.{Says, MembersFor, VerifiedFor, LocatedFor, PlannedFor, MendedFor, CheckedFor, AdoptedFor};
ghost use Rattle.pt_replay.specs.Tables.{TextFor, FreeFor, SetFor};

use pt_guid::{Guid, code_of_type};
use pt_replay::{
    Answer, FreeRow, GuidBytes, GuidText, MemberRow, Reply, TableRow, View, WriteRow,
    adopt_planned, beyond, checked, free_listed, located, members, mended, planned, set_planned,
    table_written, verified, wanted,
};
use pt_sector::Moments;
use std::alloc::Global;

/// The number of this interface: a header's PTAB_VERSION must be equal.
const VERSION: i32 = 2;

/// Lists the partitions of what the disk denotes.
#[unsafe(no_mangle)]
pub extern "C" fn ptab_members(
    alloc: Global,
    view: &View<'_>,
    table: &mut TableRow,
    rows: &mut [MemberRow],
    reply: &mut Reply,
) -> i32
    ghost disk: { Sectors }
    ensures says { IsPartOf view.now disk → Says (OfSize view.now (listing table.new rows.new ≡ listing table.old rows.old)
        (MembersFor view.now.sector_size view.now disk (listing table.old rows.old) (listing table.new rows.new))) result reply.new }
{
    match view.sector_size {
        512 => members::<512>(alloc, view, table, rows, Moments::any()).give(reply),
        4096 => members::<4096>(alloc, view, table, rows, Moments::any()).give(reply),
        _ => Answer::bad_argument(1).give(reply),
    }
}

/// The table that the disk denotes as text, as `ptab show --json` prints it under this name of the device, in the caller's buffer.
#[unsafe(no_mangle)]
pub extern "C" fn ptab_table_text(
    alloc: Global,
    view: &View<'_>,
    device: &[u8],
    text: &mut [u8],
    reply: &mut Reply,
) -> i32
    ghost disk: { Sectors }
    ensures says { IsPartOf view.now disk → Says (OfSize view.now (text.new ≡ text.old)
        (TextFor view.now.sector_size view.now disk device.now text.old text.new)) result reply.new }
{
    match view.sector_size {
        512 => table_written::<512>(alloc, view, device, text, Moments::any()).give(reply),
        4096 => table_written::<4096>(alloc, view, device, text, Moments::any()).give(reply),
        _ => Answer::bad_argument(1).give(reply),
    }
}

/// Lists the blocks of free sectors, where a new partition may lie.
#[unsafe(no_mangle)]
pub extern "C" fn ptab_free(
    alloc: Global,
    view: &View<'_>,
    rows: &mut [FreeRow],
    reply: &mut Reply,
) -> i32
    ghost disk: { Sectors }
    ensures says { IsPartOf view.now disk → Says (OfSize view.now (rows.new ≡ rows.old)
        (FreeFor view.now.sector_size view.now disk rows.old rows.new)) result reply.new }
{
    match view.sector_size {
        512 => free_listed::<512>(alloc, view, rows, Moments::any()).give(reply),
        4096 => free_listed::<4096>(alloc, view, rows, Moments::any()).give(reply),
        _ => Answer::bad_argument(1).give(reply),
    }
}

/// All sectors that are known to be wanted for the table and its labels, to be read in one go, in the caller's buffer; 0 where
/// the table wants nothing.
#[unsafe(no_mangle)]
pub extern "C" fn ptab_wanted(
    alloc: Global,
    view: &View<'_>,
    sectors: &mut [u64],
    reply: &mut Reply,
) -> i32
    ghost disk: { Sectors }
    ensures says { IsPartOf view.now disk → Says (OfSize view.now (sectors.new ≡ sectors.old)
        (WantedFor view.now.sector_size view.now disk sectors.old sectors.new)) result reply.new }
{
    match view.sector_size {
        512 => wanted::<512>(alloc, view, sectors, Moments::any()).give(reply),
        4096 => wanted::<4096>(alloc, view, sectors, Moments::any()).give(reply),
        _ => Answer::bad_argument(1).give(reply),
    }
}

/// Whether the disk is healthy: 0, or 1 with the first finding.
#[unsafe(no_mangle)]
pub extern "C" fn ptab_verify(alloc: Global, view: &View<'_>, reply: &mut Reply) -> i32
    ghost disk: { Sectors }
    ensures says { IsPartOf view.now disk → Says (OfSize view.now NoBuffers (VerifiedFor view.now.sector_size view.now disk))
        result reply.new }
{
    match view.sector_size {
        512 => verified::<512>(alloc, view, Moments::any()).give(reply),
        4096 => verified::<4096>(alloc, view, Moments::any()).give(reply),
        _ => Answer::bad_argument(1).give(reply),
    }
}

/// Where sector `k` of a partition is: 0 with the sector, or 1. The letter is 0 for a partition without one.
#[unsafe(no_mangle)]
pub extern "C" fn ptab_locate(
    alloc: Global,
    view: &View<'_>,
    number: u64,
    letter: u8,
    k: u64,
    reply: &mut Reply,
) -> i32
    ghost disk: { Sectors }
    ensures says { IsPartOf view.now disk → Says (OfSize view.now NoBuffers
        (LocatedFor view.now.sector_size view.now disk number letter k)) result reply.new }
{
    match view.sector_size {
        512 => located::<512>(alloc, view, number, letter, k, Moments::any()).give(reply),
        4096 => located::<4096>(alloc, view, number, letter, k, Moments::any()).give(reply),
        _ => Answer::bad_argument(1).give(reply),
    }
}

/// The checked plan for what edit words make of the disk, in the caller's buffers.
///
/// The words stand one after the other, each ended by a zero byte; `drawn` has sixteen random bytes for each fresh
/// GUID.
#[unsafe(no_mangle)]
pub extern "C" fn ptab_plan(
    alloc: Global,
    view: &View<'_>,
    words: &[u8],
    drawn: &[u8],
    writes: &mut [WriteRow],
    bytes: &mut [u8],
    reply: &mut Reply,
) -> i32
    ghost disk: { Sectors }
    ensures says { IsPartOf view.now disk → Says (OfSize view.now (buffers writes.new bytes.new ≡ buffers writes.old bytes.old)
        (PlannedFor view.now.sector_size view.now disk words.now drawn.now
        (buffers writes.old bytes.old) (buffers writes.new bytes.new))) result reply.new }
{
    match view.sector_size {
        512 => planned::<512>(alloc, view, words, drawn, writes, bytes, Moments::any()).give(reply),
        4096 => {
            planned::<4096>(alloc, view, words, drawn, writes, bytes, Moments::any()).give(reply)
        }
        _ => Answer::bad_argument(1).give(reply),
    }
}

/// The checked plan of a repair, in the caller's buffers: without writes where the disk is healthy.
#[unsafe(no_mangle)]
pub extern "C" fn ptab_repair(
    alloc: Global,
    view: &View<'_>,
    writes: &mut [WriteRow],
    bytes: &mut [u8],
    reply: &mut Reply,
) -> i32
    ghost disk: { Sectors }
    ensures says { IsPartOf view.now disk → Says (OfSize view.now (buffers writes.new bytes.new ≡ buffers writes.old bytes.old)
        (MendedFor view.now.sector_size view.now disk
        (buffers writes.old bytes.old) (buffers writes.new bytes.new))) result reply.new }
{
    match view.sector_size {
        512 => mended::<512>(alloc, view, writes, bytes, Moments::any()).give(reply),
        4096 => mended::<4096>(alloc, view, writes, bytes, Moments::any()).give(reply),
        _ => Answer::bad_argument(1).give(reply),
    }
}

/// The checked plan that makes the disk healthy with the layout that another one denotes, in the caller's buffers: without
/// writes where it is so already. It may want a sector of either.
#[unsafe(no_mangle)]
pub extern "C" fn ptab_adopt_plan(
    alloc: Global,
    view: &View<'_>,
    other: &View<'_>,
    writes: &mut [WriteRow],
    bytes: &mut [u8],
    reply: &mut Reply,
) -> i32
    ghost disks: { Disks }
    ensures says { IsPartOf view.now disks.disk → IsPartOf other.now disks.other →
        Says (OfSize view.now (buffers writes.new bytes.new ≡ buffers writes.old bytes.old)
        (AdoptedFor view.now.sector_size view.now other.now disks.disk disks.other
        (buffers writes.old bytes.old) (buffers writes.new bytes.new))) result reply.new }
{
    match view.sector_size {
        512 => adopt_planned::<512>(
            alloc,
            view,
            other,
            writes,
            bytes,
            Moments::any(),
            beyond(),
        ).give(reply),
        4096 => adopt_planned::<4096>(
            alloc,
            view,
            other,
            writes,
            bytes,
            Moments::any(),
            beyond(),
        ).give(reply),
        _ => Answer::bad_argument(1).give(reply),
    }
}

/// The checked plan by which the disk takes the table that a text says, in the caller's buffers: without writes where it has it
/// already. `drawn` has sixteen random bytes for each fresh GUID.
#[unsafe(no_mangle)]
pub extern "C" fn ptab_set_plan(
    alloc: Global,
    view: &View<'_>,
    text: &[u8],
    drawn: &[u8],
    writes: &mut [WriteRow],
    bytes: &mut [u8],
    reply: &mut Reply,
) -> i32
    ghost disk: { Sectors }
    ensures says { IsPartOf view.now disk → Says (OfSize view.now (buffers writes.new bytes.new ≡ buffers writes.old bytes.old)
        (SetFor view.now.sector_size view.now disk text.now drawn.now
        (buffers writes.old bytes.old) (buffers writes.new bytes.new))) result reply.new }
{
    match view.sector_size {
        512 => set_planned::<512>(alloc, view, text, drawn, writes, bytes, Moments::any()).give(
            reply,
        ),
        4096 => set_planned::<4096>(alloc, view, text, drawn, writes, bytes, Moments::any()).give(
            reply,
        ),
        _ => Answer::bad_argument(1).give(reply),
    }
}

/// Whether a plan from elsewhere may be applied to the disk: 0 with its switch in `a`, or 1 with the first reason.
#[unsafe(no_mangle)]
pub extern "C" fn ptab_check(
    alloc: Global,
    view: &View<'_>,
    writes: &[WriteRow],
    bytes: &[u8],
    reply: &mut Reply,
) -> i32
    ghost disk: { Sectors }
    ensures says { IsPartOf view.now disk → Says (OfSize view.now NoBuffers
        (CheckedFor view.now.sector_size view.now disk writes.now bytes.now)) result reply.new }
{
    match view.sector_size {
        512 => checked::<512>(alloc, view, writes, bytes, Moments::any()).give(reply),
        4096 => checked::<4096>(alloc, view, writes, bytes, Moments::any()).give(reply),
        _ => Answer::bad_argument(1).give(reply),
    }
}

/// The text of a GUID in lower case.
#[unsafe(no_mangle)]
pub extern "C" fn ptab_guid_text(guid: &GuidBytes, text: &mut GuidText)
    ensures { text.new.bytes ≡ text_of guid.now.bytes }
{
    let mut buffer = [0; 36];
    let written = Guid(guid.bytes).to_text(&mut buffer);
    text.bytes.copy_from_slice(written.as_bytes());
}

/// The code of a partition's type, as 0xEF00; -1 where there is none.
#[unsafe(no_mangle)]
pub extern "C" fn ptab_type_code(guid: &GuidBytes) -> i32
    ensures { IsTypeCode guid.now.bytes result }
{
    match code_of_type(&Guid(guid.bytes)) {
        Some(code) => i32::from(code),
        None => -1,
    }
}

/// The number of this interface.
#[unsafe(no_mangle)]
pub extern "C" fn ptab_version() -> i32
    ensures { result ≡ pos 2 }
{
    VERSION
}
