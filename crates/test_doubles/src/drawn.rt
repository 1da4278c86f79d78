//! Images of every kind, drawn by a fixed seed.

ghost use Rattle.std.specs.Prelude.{◌<◌};
ghost use Rattle.pt_sector.specs.Sectors.{IsSectorSize};

use pt_bsd::{LabelEntry, empty_label, encode_label};
use pt_disks::in_memory::MemDisk;
use pt_gpt::{
    Entry, Header, Side, array_at, array_crc, array_sectors, encode_array_sector, encode_header,
    header_at,
};
use pt_guid::{Guid, type_of_code};
use pt_mbr::{Mbr, encode_mbr, protective};
use pt_sector::{Disk, Lba, Sector};
use std::alloc::Global;
use std::test::Fail;
use test_samples::record;

/// Numbers that look drawn, the same for a seed.
#[derive(Drop)]
pub struct Dice {
    pub state: u64,
}

impl Dice {
    /// A number below `n`.
    fn below(&mut self, n: u32) -> u32
        requires { 0 < n }
        ensures { result < n }
    {
        self.state = self
            .state
            .wrapping_mul(6364136223846793005)
            .wrapping_add(1442695040888963407);
        (self.state >> 33) as u32 % n
    }

    /// Whether one in `n` drawn ones.
    fn rarely(&mut self, n: u32) -> bool
        requires { 0 < n }
    {
        self.below(n) == 0
    }
}

/// Writes a sector, where there is one.
pub fn put<const B: usize, D: Disk<B>>(disk: &mut D, at: u64, bytes: &Sector<B>) {
    if at < disk.sectors() {
        let _ = disk.write(Lba(at), bytes);
    }
}

/// A label for a slice, in either form, with entries a and b; now and then one of another length.
fn put_label<const B: usize, D: Disk<B>>(disk: &mut D, dice: &mut Dice, first: u32, len: u32)
    requires { IsSectorSize B }
{
    if dice.rarely(3) {
        return;
    }
    let start = if dice.rarely(2) { 0 } else { first };
    let wrong = dice.rarely(12) as u32;
    let mut label = empty_label(len.wrapping_add(wrong));
    for k in 0..3usize {
        if let Some(e) = label.entries[k] {
            let drawn = start
                .wrapping_add(16)
                .wrapping_add(dice.below(5))
                .wrapping_add(k as u32 * 14);
            label.entries[k] = Some(LabelEntry {
                size: if k == 2 { e.size } else { dice.below(18) },
                offset: if k == 2 { start } else { drawn },
                ..e
            });
        }
    }
    let place = u64::from(first) + 1;
    put(disk, place, &encode_label(&label, &[0; B]));
}

/// A chain of up to three extended boot records from a sector on; now and then broken.
fn put_chain<const B: usize, D: Disk<B>>(disk: &mut D, dice: &mut Dice, first: u32)
    requires { IsSectorSize B }
{
    let kinds = [0x83, 0xA5, 0x83, 0, 0x83, 0xA5, 0x07, 0x05];
    for k in 0..3u32 {
        let at = u64::from(first) + u64::from(k) * 26;
        let kind = kinds[dice.below(8) as usize];
        let start = 1 + dice.below(3);
        let size = 19 + dice.below(6);
        let more = k < 2 && !dice.rarely(4);
        let next = if dice.rarely(20) { 0 } else { k * 26 + 26 };
        let records = [
            record(kind, start, size),
            if more { record(0x05, next, 1) } else { None },
            None,
            None,
        ];
        if !dice.rarely(20) {
            put(disk, at, &encode_mbr(&Mbr { records }, &[0; B]));
        }
        if kind == 0xA5 {
            put_label(disk, dice, first.wrapping_add(k * 26 + start), size);
        }
        if !more {
            return;
        }
    }
}

/// An MBR disk of 400 sectors.
pub fn mbr_image<const B: usize>(alloc: Global, dice: &mut Dice) -> Result<MemDisk<B>, Fail>
    requires { IsSectorSize B }
{
    let mut disk: MemDisk<B> = MemDisk::new(alloc, 400)?;
    let kinds = [0x83, 0x83, 0xA5, 0xA5, 0x05, 0, 0x0F, 0x07];
    let mut records = [None; 4];
    for k in 0..4u32 {
        let kind = kinds[dice.below(8) as usize];
        let start = if dice.rarely(12) {
            dice.below(400)
        } else {
            4 + 90 * k + dice.below(5)
        };
        let size = if dice.rarely(20) {
            dice.below(200)
        } else {
            60 + dice.below(28)
        };
        records[k as usize] = record(kind, start, size);
        if kind == 0x05 || kind == 0x0F {
            put_chain(&mut disk, dice, start);
        }
        if kind == 0xA5 {
            put_label(&mut disk, dice, start, size);
        }
    }
    put(&mut disk, 0, &encode_mbr(&Mbr { records }, &[0; B]));
    Ok(disk)
}

/// Four entries, the slices among them labelled.
fn entries<const B: usize, D: Disk<B>>(disk: &mut D, dice: &mut Dice) -> [Option<Entry>; 4]
    requires { IsSectorSize B }
{
    let codes = [0x8300, 0xA500, 0x8200, 0];
    let mut entries = [None; 4];
    for k in 0..4u32 {
        let first = if dice.rarely(12) {
            dice.below(200)
        } else {
            36 + 32 * k + dice.below(5)
        };
        let last = if dice.rarely(20) {
            dice.below(200)
        } else {
            first + 20 + dice.below(8)
        };
        let unique = if dice.rarely(12) { 1 } else { k as u8 };
        if let Some(kind) = type_of_code(codes[dice.below(4) as usize]) {
            entries[k as usize] = Some(Entry {
                kind,
                unique: Guid([unique; 16]),
                first: u64::from(first),
                last: u64::from(last),
                attributes: 0,
                name: [0; 36],
            });
            if first <= last {
                put_label(disk, dice, first, last - first + 1);
            }
        }
    }
    entries
}

/// A side's copy of a table with these entries; now and then broken.
fn put_copy<const B: usize, D: Disk<B>>(
    disk: &mut D,
    dice: &mut Dice,
    entries: &[Option<Entry>; 4],
    side: Side,
    other: Side,
)
    requires { IsSectorSize B }
{
    let sectors = disk.sectors();
    let edge = array_sectors::<B>() + 2;
    if sectors < 2 * edge || dice.rarely(10) {
        return;
    }
    let header = Header {
        my: header_at(side, sectors) ^ u64::from(dice.rarely(20)),
        alternate: header_at(other, sectors) ^ u64::from(dice.rarely(20)),
        first: edge,
        last: sectors - edge,
        disk: Guid([2 + dice.rarely(20) as u8; 16]),
        array: array_at::<B>(side, sectors),
        count: 4,
        entry_size: 128,
        array_crc: array_crc(entries) ^ u32::from(dice.rarely(20)),
    };
    put(disk, header_at(side, sectors), &encode_header(&header));
    put(disk, header.array, &encode_array_sector(entries, 0));
}

/// A GPT disk of so many sectors.
pub fn gpt_image<const B: usize>(alloc: Global, dice: &mut Dice) -> Result<MemDisk<B>, Fail>
    requires { IsSectorSize B }
{
    let sectors = if dice.rarely(20) { 11 } else { 200 };
    let mut disk: MemDisk<B> = MemDisk::new(alloc, sectors)?;
    let entries = entries(&mut disk, dice);
    put_copy(&mut disk, dice, &entries, Side::Primary, Side::Backup);
    put_copy(&mut disk, dice, &entries, Side::Backup, Side::Primary);
    if !dice.rarely(8) {
        put(&mut disk, 0, &protective(sectors, &[0; B]));
    }
    Ok(disk)
}
