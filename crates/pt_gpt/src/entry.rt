//! An entry of the table, as a value and as 128 bytes.

ghost use Rattle.std.specs.Prelude.{◌≡◌, ◌+◌, ◌<◌, ◌≤◌, ◌^◌, IfSome, MatchOption, ℕ, length, slice_index, replicate, flat_map};
ghost use Rattle.byteorder.specs.Endian.{little_bytes};
ghost use Rattle.pt_gpt.specs.inner.Entries.{put_at};
ghost use Rattle.pt_gpt.specs.Entries.{EntryFields, EntryBytes, EntryIs, EntryFits, IsTyped, used_bytes};

use crate::bytes::{put_guid, put_u64};
use crate::view::EntryView;
use byteorder::{ByteOrder, LittleEndian};
use pt_guid::Guid;

/// A used entry (UEFI 2.10, 5.3.3). One whose type GUID is zero reads back as none.
#[derive(Clone, Copy, Debug, PartialEq, Eq)]
pub struct Entry {
    /// PartitionTypeGUID.
    pub kind: Guid,
    /// UniquePartitionGUID: the partition's own.
    pub unique: Guid,
    /// StartingLBA: its first sector.
    pub first: u64,
    /// EndingLBA: its last sector, inclusive.
    pub last: u64,
    /// Attributes, all 64 bits: 0 required, 1 no block IO protocol, 2 legacy BIOS bootable, 48 to 63 the type's own.
    pub attributes: u64,
    /// PartitionName: its name in UTF-16, ended by a zero or by the last unit.
    pub name: [u16; 36],
}

/// The entry that the bytes are; none where the type GUID is zero, whatever the other bytes are.
pub fn decode_entry(bytes: &[u8; 128]) -> Option<Entry>
    ensures { EntryIs result bytes.now }
{
    EntryView::new(bytes).entry()
}

fn put_units(bytes: &mut [u8], at: usize, units: &[u16; 36])
    requires { at + 72 ≤ length bytes.old }
    ensures put { bytes.new ≡ put_at at (flat_map (little_bytes 2) units.now) bytes.old }
    ensures fits { length units.now ≡ 36 }
    ensures small { (i : ℕ) → slice_index units.now i < 2 ^ 16 }
{
    LittleEndian::write_u16_into(units, &mut bytes[at..at + 72]);
}

#[tactic(auto, unfolding(crate::specs::Entries::used_bytes))]
fn used(entry: &Entry) -> [u8; 128]
    ensures bytes { result ≡ used_bytes entry.now }
    ensures fits { EntryFits entry.now }
{
    let mut bytes = [0; 128];
    put_guid(&mut bytes, 0, &entry.kind);
    put_guid(&mut bytes, 16, &entry.unique);
    put_u64(&mut bytes, 32, entry.first);
    put_u64(&mut bytes, 40, entry.last);
    put_u64(&mut bytes, 48, entry.attributes);
    put_units(&mut bytes, 56, &entry.name);
    bytes
}

/// The bytes of an entry; of none, 128 zeros.
pub fn encode_entry(entry: Option<&Entry>) -> [u8; 128]
    ensures bytes { MatchOption entry.entry (result ≡ replicate 128 0) (λ e. result ≡ used_bytes e.now) }
    ensures fields { IfSome entry.entry (λ e. EntryFields e.now result) }
    ensures used { IfSome entry.entry (λ e. IsTyped e.now → EntryBytes e.now result) }
    ensures fits { IfSome entry.entry (λ e. EntryFits e.now) }
{
    match entry {
        None => [0; 128],
        Some(entry) => used(entry),
    }
}
