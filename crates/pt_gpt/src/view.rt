//! An entry read in place.

ghost use Rattle.std.specs.Prelude.{◌≡◌, ◌+◌, ◌*◌, ◌≤◌, ◌↔◌, ℕ, List, IsTrue, length, slice_range};
ghost use Rattle.pt_sector.specs.Sectors.{number_at};
ghost use Rattle.pt_gpt.specs.Entries.{IsUnused, UnitsAt, EntryIs};

use crate::bytes::guid_at;
use crate::entry::Entry;
use byteorder::{ByteOrder, LittleEndian};
use pt_guid::Guid;
use std::marker::Model;

/// The size of an entry in bytes.
pub const ENTRY_SIZE: usize = 128;

fn name_at(bytes: &[u8]) -> [u16; 36]
    requires { length bytes.now ≡ 128 }
    ensures { UnitsAt bytes.now result }
{
    let mut name = [0; 36];
    LittleEndian::read_u16_into(&bytes[56..128], &mut name);
    name
}

/// An entry in the bytes of an array, read where they stand. A clause sees it as its 128 bytes.
#[derive(Drop)]
pub struct EntryView<'a> {
    bytes: &'a [u8],
}

impl<'a> Model for EntryView<'a> {
    ghost Value = { List ℕ };

    ghost view = { λ v. v.bytes.now };

    ghost invariant = { λ v. length v.bytes.now ≡ 128 };
}

impl<'a> EntryView<'a> {
    /// The entry that these bytes are.
    pub fn new(bytes: &'a [u8; 128]) -> EntryView<'a>
        ensures { result ≡ bytes.now }
    {
        EntryView { bytes: &bytes[..] }
    }

    /// Entry `k`, from 0 on, of a part of an array that begins with an entry.
    pub fn in_part(part: &'a [u8], k: usize) -> EntryView<'a>
        requires { k * 128 + 128 ≤ length part.now }
        ensures { result ≡ slice_range part.now (k * 128) (k * 128 + 128) }
    {
        EntryView {
            bytes: &part[k * ENTRY_SIZE..k * ENTRY_SIZE + ENTRY_SIZE],
        }
    }

    /// Whether its type GUID isn't zero. What the fields of an unused entry say means nothing.
    pub fn is_used(&self) -> bool
        ensures { IsTrue result ↔ (¬ IsUnused self.now) }
    {
        &self.bytes[..16] != [0; 16].as_slice()
    }

    /// PartitionTypeGUID.
    pub fn kind(&self) -> Guid
        ensures { result.0 ≡ slice_range self.now 0 16 }
    {
        guid_at(self.bytes, 0)
    }

    /// UniquePartitionGUID: the partition's own.
    pub fn unique(&self) -> Guid
        ensures { result.0 ≡ slice_range self.now 16 32 }
    {
        guid_at(self.bytes, 16)
    }

    /// StartingLBA: its first sector.
    pub fn first(&self) -> u64
        ensures { result ≡ number_at 32 8 self.now }
    {
        LittleEndian::read_u64(&self.bytes[32..40])
    }

    /// EndingLBA: its last sector, inclusive.
    pub fn last(&self) -> u64
        ensures { result ≡ number_at 40 8 self.now }
    {
        LittleEndian::read_u64(&self.bytes[40..48])
    }

    /// Attributes, all 64 bits.
    pub fn attributes(&self) -> u64
        ensures { result ≡ number_at 48 8 self.now }
    {
        LittleEndian::read_u64(&self.bytes[48..56])
    }

    /// PartitionName: its 36 units of UTF-16.
    pub fn name(&self) -> [u16; 36]
        ensures { UnitsAt self.now result }
    {
        name_at(self.bytes)
    }

    /// All of it, or none where it isn't used.
    pub fn entry(&self) -> Option<Entry>
        ensures { EntryIs result self.now }
    {
        if !self.is_used() {
            return None;
        }
        Some(Entry {
            kind: self.kind(),
            unique: self.unique(),
            first: self.first(),
            last: self.last(),
            attributes: self.attributes(),
            name: self.name(),
        })
    }
}
