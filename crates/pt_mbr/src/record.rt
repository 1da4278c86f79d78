ghost use Rattle.std.specs.Prelude.{◌≡◌, ◌≤◌, ◌+◌, ◌↔◌, IsTrue, Some, length, slice_range};
ghost use Rattle.pt_mbr.specs.Records.{put_at, IsUsed, HasFields, RecordIs, IsExtendedKind, record_bytes};
ghost use Rattle.pt_mbr.specs.inner.Records.{RecordFits};

use crate::bytes::{put_bytes, put_u32};
use byteorder::{ByteOrder, LittleEndian};

/// The type (OSType) of a protective record.
pub const PROTECTIVE: u8 = 0xEE;

/// The type (OSType) of a slice, which a BSD label subdivides. This project's choice.
pub const SLICE_KIND: u8 = 0xA5;

/// The CHS fields of a place that they can't say.
pub const FARTHEST: [u8; 3] = [0xFE, 0xFF, 0xFF];

/// The number of the first logical partition: the records of sector 0 have 1 to 4.
pub const FIRST_LOGICAL: u64 = 5;

/// A used partition record: 16 bytes of a boot record.
///
/// `start` and `size` count sectors. In sector 0 `start` counts from sector 0; in an extended boot record that of the
/// logical partition counts from the record itself, that of the link from the extended partition's first sector.
/// The CHS fields are kept as read and never interpreted. UEFI 2.10, 5.2.1.
#[derive(Clone, Copy, Debug, Default, PartialEq, Eq)]
pub struct Record {
    /// BootIndicator: 80 for a partition to be booted, 00 otherwise.
    pub boot: u8,
    /// StartingCHS: the first sector as cylinder, head and sector.
    pub start_chs: [u8; 3],
    /// OSType: the type.
    pub kind: u8,
    /// EndingCHS: the last sector as cylinder, head and sector.
    pub end_chs: [u8; 3],
    /// StartingLBA: the first sector.
    pub start: u32,
    /// SizeInLBA: how many sectors it has.
    pub size: u32,
}

/// Whether a type (OSType) is an extended partition's: 05 or 0F. This project's choice.
pub fn is_extended_kind(kind: u8) -> bool
    ensures { IsTrue result ↔ IsExtendedKind kind }
{
    kind == 0x05 || kind == 0x0F
}

fn chs_at(bytes: &[u8], at: usize) -> [u8; 3]
    requires { at + 3 ≤ length bytes.now }
    ensures { result ≡ slice_range bytes.now at (at + 3) }
{
    let mut chs = [0; 3];
    chs.copy_from_slice(&bytes[at..at + 3]);
    chs
}

pub(crate) fn is_used(bytes: &[u8], at: usize) -> bool
    requires { at + 16 ≤ length bytes.now }
    ensures { IsTrue result ↔ IsUsed at bytes.now }
{
    bytes[at + 4] != 0 && LittleEndian::read_u32(&bytes[at + 12..at + 16]) != 0
}

// The fields of the record at a place, used or not.
pub(crate) fn fields_at(bytes: &[u8], at: usize) -> Record
    requires { at + 16 ≤ length bytes.now }
    ensures { HasFields result at bytes.now }
{
    Record {
        boot: bytes[at],
        start_chs: chs_at(bytes, at + 1),
        kind: bytes[at + 4],
        end_chs: chs_at(bytes, at + 5),
        start: LittleEndian::read_u32(&bytes[at + 8..at + 12]),
        size: LittleEndian::read_u32(&bytes[at + 12..at + 16]),
    }
}

// The record at a place, where it is used.
pub(crate) fn record_at(bytes: &[u8], at: usize) -> Option<Record>
    requires { at + 16 ≤ length bytes.now }
    ensures { RecordIs result at bytes.now }
{
    if is_used(bytes, at) {
        Some(fields_at(bytes, at))
    } else {
        None
    }
}

fn put_chs(bytes: &mut [u8], at: usize, chs: &[u8; 3])
    requires { at + 3 ≤ length bytes.old }
    ensures put { bytes.new ≡ put_at at chs.now bytes.old }
    ensures fits { length chs.now ≡ 3 }
{
    put_bytes(bytes, at, &chs[..]);
}

// The 16 bytes of a record.
pub(crate) fn encode_record(value: &Record) -> [u8; 16]
    ensures bytes { result ≡ record_bytes (Some value.now) }
    ensures fits { RecordFits value.now }
{
    let mut bytes = [0; 16];
    bytes[0] = value.boot;
    bytes[4] = value.kind;
    put_chs(&mut bytes, 1, &value.start_chs);
    put_chs(&mut bytes, 5, &value.end_chs);
    put_u32(&mut bytes, 8, value.start);
    put_u32(&mut bytes, 12, value.size);
    bytes
}
