//! Reading the entries of an array, sector by sector.

ghost use Rattle.std.specs.Prelude.{◌≡◌, ◌+◌, ◌*◌, ◌/◌, ◌<◌, ◌≤◌, ◌^◌, ◌++◌, IfOk, IfErr, OnOk, List, Option, length, take, vec_len};
ghost use Rattle.std.specs.Prelude.{vec_capacity, IsTrue};
ghost use Rattle.pt_sum.specs.Sums.{crc_of};
ghost use Rattle.pt_sector.specs.Sectors.{IsSectorSize};
ghost use Rattle.pt_sector.specs.Device.{Blames};
ghost use Rattle.pt_sector.specs.Overlays.{OnlyReads};
ghost use Rattle.pt_gpt.specs.Copies.{IsOutsideCopy, fault_in, FailedInCopy, counted, AreEntries, bytes_from};
ghost use Rattle.pt_gpt.specs.inner.Copies.{HaveEntries};
ghost use Rattle.pt_gpt.specs.declared.entry.Entry.{Entry};

use crate::entry::Entry;
use crate::error::CopyError;
use crate::last::{LastArray, Taken};
use crate::place::counted_sectors;
use crate::table::Entries;
use crate::view::{ENTRY_SIZE, EntryView};
use pt_sector::{Disk, Lba, read_sector};
use std::alloc::{AllocError, Global};

// Adds the entries of a part of the array. There is room for them.
fn push_entries(items: &mut Vec<Option<Entry>>, part: &[u8])
    requires whole { length part.now ≡ length part.now / 128 * 128 }
    requires room { vec_len items.old + length part.now / 128 ≤ vec_capacity items.old }
    ensures entries { (es : List (Option Entry)) × AreEntries es part.now × (items.new.items ≡ items.old.items ++ es) }
    ensures len { vec_len items.new ≡ vec_len items.old + length part.now / 128 }
    ensures capacity { vec_capacity items.new ≡ vec_capacity items.old }
{
    for k in 0..part.len() / ENTRY_SIZE {
        items.push_reserved(EntryView::in_part(part, k).entry());
    }
}

// The entries that these bytes are.
fn entries_in(alloc: Global, bytes: &[u8]) -> Result<Entries, AllocError>
    requires { length bytes.now ≡ length bytes.now / 128 * 128 }
    ensures { IfOk result (λ es. AreEntries es bytes.now) }
{
    let mut items = Vec::with_capacity(alloc, bytes.len() / ENTRY_SIZE)?;
    push_entries(&mut items, bytes);
    Ok(Entries::new(items))
}

// The bytes of the entries of an array, from sector `at` on. The memory for them is taken before the first read.
fn read_bytes<const B: usize, D: Disk<B>>(
    alloc: Global,
    disk: &mut D,
    at: u64,
    count: u32,
) -> Result<Vec<u8>, CopyError>
    requires size { IsSectorSize B }
    requires most { count ≤ 128 }
    requires fits { at + counted B count < 2 ^ 64 }
    requires within { at + counted B count ≤ D.count disk.old }
    ensures same { OnlyReads D.Disk disk.old disk.new }
    ensures blames { Blames fault_in result (D.faults disk.old) (D.faults disk.new) }
    ensures outside { IfErr result IsOutsideCopy }
    ensures place { IfErr result (FailedInCopy (λ s. (at ≤ s) × (s < at + counted B count))) }
    ensures number { IfOk result (λ v. length v.items ≡ count * 128) }
    ensures bytes { D.tells → IfOk result (λ v. v.items ≡ take (count * 128) (bytes_from (D.told disk.old).seen at (counted B count))) }
{
    let mut left = count as usize * ENTRY_SIZE;
    let mut bytes = Vec::with_capacity(alloc, left)?;
    let mut sector = [0; B];
    for i in 0..counted_sectors::<B>(count) {
        read_sector(disk, Lba(at + i), &mut sector)?;
        let whole = &sector[..];
        let taken = left.min(B);
        bytes.extend_from_slice(&whole[..taken])?;
        left -= taken;
    }
    Ok(bytes)
}

// The CRC and the entries of the array from sector `at` on. It isn't summed where it has the bytes of the last one.
pub(crate) fn read_entries<const B: usize, D: Disk<B>>(
    alloc: Global,
    disk: &mut D,
    at: u64,
    count: u32,
    last: &mut LastArray,
) -> Result<(u32, Entries), CopyError>
    requires size { IsSectorSize B }
    requires most { count ≤ 128 }
    requires fits { at + counted B count < 2 ^ 64 }
    requires within { at + counted B count ≤ D.count disk.old }
    ensures same { OnlyReads D.Disk disk.old disk.new }
    ensures blames { Blames fault_in result (D.faults disk.old) (D.faults disk.new) }
    ensures outside { IfErr result IsOutsideCopy }
    ensures place { IfErr result (FailedInCopy (λ s. (at ≤ s) × (s < at + counted B count))) }
    ensures number { IfOk result (λ r. length r.1 ≡ count) }
    ensures crc { D.tells → IfOk result (λ r. r.0 ≡ crc_of (take (count * 128) (bytes_from (D.told disk.old).seen at (counted B count)))) }
    ensures entries { D.tells → IfOk result (λ r. AreEntries r.1
        (take (count * 128) (bytes_from (D.told disk.old).seen at (counted B count)))) }
    ensures last { IfOk result (λ r. AreEntries r.1 last.new) }
{
    let bytes = read_bytes(alloc, disk, at, count)?;
    let entries = entries_in(alloc, &bytes)?;
    let taken = last.take(bytes);
    Ok((taken.crc, entries))
}

// Whether these bytes, which were taken last, are those entries. They aren't decoded where they are the bytes that the entries were
// decoded from.
fn have_entries(
    alloc: Global,
    bytes: &[u8],
    taken: Taken,
    entries: &Entries,
) -> Result<bool, AllocError>
    requires whole { length bytes.now ≡ length bytes.now / 128 * 128 }
    requires same { IsTrue taken.same → AreEntries entries.now bytes.now }
    ensures { IfOk result (HaveEntries bytes.now entries.now) }
{
    if taken.same {
        return Ok(true);
    }
    Ok(entries_in(alloc, bytes)?.same(entries))
}

// The CRC of the array from sector `at` on, and whether it has these entries, which are those of the last array.
pub(crate) fn read_same_entries<const B: usize, D: Disk<B>>(
    alloc: Global,
    disk: &mut D,
    at: u64,
    count: u32,
    entries: &Entries,
    last: &mut LastArray,
) -> Result<(u32, bool), CopyError>
    requires size { IsSectorSize B }
    requires most { count ≤ 128 }
    requires fits { at + counted B count < 2 ^ 64 }
    requires within { at + counted B count ≤ D.count disk.old }
    requires last { AreEntries entries.now last.old }
    ensures same { OnlyReads D.Disk disk.old disk.new }
    ensures blames { Blames fault_in result (D.faults disk.old) (D.faults disk.new) }
    ensures outside { IfErr result IsOutsideCopy }
    ensures place { IfErr result (FailedInCopy (λ s. (at ≤ s) × (s < at + counted B count))) }
    ensures number { D.tells → IfOk result (λ r. length
        (take (count * 128) (bytes_from (D.told disk.old).seen at (counted B count))) ≡ count * 128) }
    ensures crc { D.tells → IfOk result (λ r. r.0 ≡ crc_of (take (count * 128) (bytes_from (D.told disk.old).seen at (counted B count)))) }
    ensures entries { D.tells → IfOk result (λ r. HaveEntries
        (take (count * 128) (bytes_from (D.told disk.old).seen at (counted B count))) entries.now r.1) }
{
    let bytes = read_bytes(alloc, disk, at, count)?;
    let taken = last.take(bytes);
    let same = have_entries(alloc, last.as_slice(), taken, entries)?;
    Ok((taken.crc, same))
}
