//! A copy that is followed.

ghost use Rattle.std.specs.Prelude.{◌≡◌, ◌<◌, ◌≤◌, ◌*◌, ◌↔◌, ℕ, IsTrue, length, slice_set};
ghost use Rattle.pt_sector.specs.Sectors.{Sectors, IsSectorSize};
ghost use Rattle.pt_gpt.specs.Copies.{counted, array_place, bytes_from};
ghost use Rattle.pt_gpt.specs.declared.table.Side.{Side};
ghost use Rattle.pt_gpt.specs.declared.table.Table.{Table};
ghost use Rattle.pt_sum.specs.Sums.{crc_of};
ghost use Rattle.pt_follow.specs.Follow.{Follows, StandingIs, IsShort, entries_at};
ghost use Rattle.pt_follow.specs.inner.Follow.{AreSet, InArrayOf, IsShaped, IsOf, WritesPart};

use crate::array::{has_entries, put_sector};
use crate::head::head_in;
use crate::standing::Standing;
use crate::sum::{part_sum, sum_with};
use pt_gpt::{
    ENTRY_SIZE, Header, MOST_ENTRIES, Side, Table, array_at, counted_sectors, has_room, header_at,
};
use pt_resum::sum_of_both;
use pt_sector::{Lba, Sector};
use pt_sum::crc32;

/// A side's copy of a table, followed write by write. [`follow`](crate::follow) makes one, and each write of the disk is to be told to it.
#[derive(Drop)]
pub struct FollowedCopy {
    pub(crate) side: Side,
    pub(crate) sectors: u64,
    // how many entries of the array are known, whatever number the table has
    pub(crate) known: u32,
    // the header that stands there
    pub(crate) head: Option<Header>,
    // the bytes of these entries as they stand
    pub(crate) bytes: Vec<u8>,
    // their CRC-32
    pub(crate) sum: u32,
    // that of those in each sector
    pub(crate) sums: Vec<u32>,
    // of each of these sectors, whether it has the table's entries
    pub(crate) same: Vec<bool>,
}

// Whether each of the first `count` flags is set.
fn are_set(flags: &[bool], count: u64) -> bool
    ensures { IsTrue result → AreSet flags.now count }
{
    for k in 0..count {
        if k >= flags.len() as u64 || !flags[k as usize] {
            return false;
        }
    }
    true
}

// Sets flag `k`, if there is one.
fn set_flag(flags: &mut Vec<bool>, k: u64, flag: bool)
    ensures { flags.new.items ≡ slice_set flags.old.items k flag }
{
    if (k as usize) < flags.len() {
        flags[k as usize] = flag;
    }
}

// Whether the header's fields are those of the table, but for the number of entries.
fn is_of(header: &Header, table: &Table) -> bool
    ensures { IsTrue result → IsOf header.now table.now }
{
    header.disk == table.disk && header.first == table.first && header.last == table.last
}

impl FollowedCopy {
    // Whether its numbers are those of a copy on some disk.
    fn is_shaped<const B: usize>(&self) -> bool
        requires { IsSectorSize B }
        ensures { IsTrue result ↔ IsShaped B self.now }
    {
        has_room::<B>(self.sectors)
            && self.known <= MOST_ENTRIES as u32
            && self.bytes.len() == self.known as usize * ENTRY_SIZE
            && self.sums.len() as u64 == counted_sectors::<B>(self.known)
    }

    // Whether the sector is of its array, as far as that is known.
    fn has_in_array<const B: usize>(&self, lba: Lba) -> bool
        requires size { IsSectorSize B }
        requires shaped { IsShaped B self.now }
        ensures { IsTrue result ↔ InArrayOf B self.now lba.0 }
    {
        let first = array_at::<B>(self.side, self.sectors);
        lba.0 >= first && lba.0 - first < counted_sectors::<B>(self.known)
    }

    // Takes the bytes that sector `k` of the array now has.
    fn write_part<const B: usize>(&mut self, table: &Table, k: u64, bytes: &Sector<B>)
        requires size { IsSectorSize B }
        requires most { self.old.known ≤ 128 }
        requires long { length self.old.bytes.items ≡ self.old.known * 128 }
        requires parts { length self.old.sums.items ≡ counted B self.old.known }
        requires within { k < counted B self.old.known }
        ensures { WritesPart B table.now.entries k bytes.now self.old self.new }
    {
        let before = self.sums[k as usize];
        let now = part_sum::<B>(self.known, k, bytes);
        self.sum = sum_with::<B>(self.sum, before, now, self.known, k);
        put_sector::<B>(&mut self.bytes, k, bytes);
        self.sums[k as usize] = now;
        set_flag(
            &mut self.same,
            k,
            has_entries::<B>(table.entries.as_slice(), k, bytes),
        );
    }

    /// Follows a write of a sector. It may be any sector of the disk; `table` is the one beside which the copy is followed. Nothing is
    /// read, and no memory is taken.
    pub fn write<const B: usize>(&mut self, table: &Table, lba: Lba, bytes: &Sector<B>)
        requires { IsSectorSize B }
        ensures { (d : Sectors) (side : Side) → lba.0 < length d → Follows B d side table.now self.old
            → Follows B (slice_set d lba.0 bytes.now) side table.now self.new }
    {
        if !self.is_shaped::<B>() {
            return;
        }
        if lba.0 == header_at(self.side, self.sectors) {
            self.head = head_in::<B>(bytes, self.side, self.sectors);
            return;
        }
        if self.has_in_array::<B>(lba) {
            let k = lba.0 - array_at::<B>(self.side, self.sectors);
            self.write_part::<B>(table, k, bytes);
        }
    }

    // The sum of the first so many sectors of the array, each of which is known whole.
    fn sum_of_sectors<const B: usize>(&self, count: usize) -> u32
        requires size { IsSectorSize B }
        requires shaped { IsShaped B self.now }
        requires within { count * B ≤ self.now.known * 128 }
        ensures { (d : Sectors) (side : Side) (t : Table) → Follows B d side t self.now
            → result ≡ crc_of (bytes_from d (array_place B side (length d)) count) }
    {
        let mut sum = 0;
        for k in 0..count {
            sum = sum_of_both(sum, self.sums[k], (B / ENTRY_SIZE) as u32);
        }
        sum
    }

    // The sum of the first so many entries.
    fn sum_of_first<const B: usize>(&self, count: u32) -> u32
        requires size { IsSectorSize B }
        requires shaped { IsShaped B self.now }
        requires within { count ≤ self.now.known }
        ensures { (d : Sectors) (side : Side) (t : Table) → Follows B d side t self.now → result ≡ crc_of (entries_at B d side count) }
    {
        if count == self.known {
            return self.sum;
        }
        let size = count as usize * ENTRY_SIZE;
        let sectors = size / B;
        let sum = self.sum_of_sectors::<B>(sectors);
        let behind = (size - sectors * B) / ENTRY_SIZE;
        sum_of_both(sum, crc32(&self.bytes[sectors * B..size]), behind as u32)
    }

    /// How it stands to the table, which is the one beside which it is followed. Nothing is read.
    pub fn standing<const B: usize>(&self, table: &Table) -> Standing
        requires { IsSectorSize B }
        ensures { (d : Sectors) (side : Side) → Follows B d side table.now self.now → StandingIs B d side table.now result }
    {
        let header = match &self.head {
            Some(header) => header,
            None => return Standing::LostHead,
        };
        let count = header.count;
        if count > self.known || !self.is_shaped::<B>() {
            return Standing::Unclear;
        }
        if header.array_crc != self.sum_of_first::<B>(count) {
            return Standing::LostArray(count);
        }
        if count as usize == table.entries.len()
            && is_of(header, table)
            && are_set(&self.same, counted_sectors::<B>(count))
        {
            return Standing::Gives;
        }
        Standing::Unclear
    }

    /// Whether its header tells of more entries than are known. Then only a reading of the side tells how it stands.
    pub fn is_short(&self) -> bool
        ensures { IsTrue result ↔ IsShort self.now }
    {
        match &self.head {
            Some(header) => header.count > self.known,
            None => false,
        }
    }
}
