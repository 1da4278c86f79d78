//! The header of a table, as a value and as a sector.

ghost use Rattle.std.specs.Prelude.{◌≡◌, ◌-◌, ◌<◌, ◌≤◌, ◌^◌, ◌↔◌, ◌++◌, IfOk, IfErr, IsTrue, length, slice_range, replicate, take, drop};
ghost use Rattle.pt_sum.specs.Sums.{crc_of};
ghost use Rattle.pt_sector.specs.Sectors.{IsSectorSize};
ghost use Rattle.pt_gpt.specs.Copies.{HeaderFields, HeaderBytes, IsHeaderFault, HasHeaderSignature, HasCrc, header_size};
ghost use Rattle.pt_gpt.specs.inner.Copies.{unsummed_from, summed_from, HeaderFits};

use crate::bytes::{guid_at, put_guid, put_u32, put_u64, u32_at, u64_at};
use crate::error::CopyError;
use pt_guid::Guid;
use pt_sector::Sector;
use pt_sum::{Crc, crc32};

/// "EFI PART" as a little-endian number.
const SIGNATURE: u64 = 0x5452_4150_2049_4645;

/// Revision 1.0.
const REVISION: u32 = 0x0001_0000;

/// The size of a header as this project writes it.
const HEADER_SIZE: u32 = 92;

/// What stands in a header (UEFI 2.10, 5.3.2), but for its size and its own CRC. Places are numbers of sectors.
#[derive(Clone, Copy, PartialEq, Eq)]
pub struct Header {
    /// MyLBA: where this header stands.
    pub my: u64,
    /// AlternateLBA: where the other one stands.
    pub alternate: u64,
    /// FirstUsableLBA: the first sector that an entry may use.
    pub first: u64,
    /// LastUsableLBA: the last one.
    pub last: u64,
    /// DiskGUID.
    pub disk: Guid,
    /// PartitionEntryLBA: the first sector of the array.
    pub array: u64,
    /// NumberOfPartitionEntries: how many entries the array has.
    pub count: u32,
    /// SizeOfPartitionEntry: how many bytes each of them has.
    pub entry_size: u32,
    /// PartitionEntryArrayCRC32: the CRC-32 of the array.
    pub array_crc: u32,
}

fn has_signature(bytes: &[u8]) -> bool
    requires { 512 ≤ length bytes.now }
    ensures { IsTrue result ↔ HasHeaderSignature bytes.now }
{
    &bytes[..8] == b"EFI PART".as_slice()
}

// The CRC of the first bytes with four zeros in its place.
fn crc_within(bytes: &[u8], size: usize) -> u32
    requires low { 92 ≤ size }
    requires high { size ≤ length bytes.now }
    ensures { result ≡ crc_of (take 16 bytes.now ++ replicate 4 0 ++ slice_range bytes.now 20 size) }
{
    let mut sum = Crc::new();
    sum.update(&bytes[..16]);
    sum.update(&[0; 4]);
    sum.update(&bytes[20..size]);
    sum.value()
}

fn has_crc(bytes: &[u8]) -> bool
    requires low { 92 ≤ header_size bytes.now }
    requires high { header_size bytes.now ≤ length bytes.now }
    ensures { IsTrue result ↔ HasCrc bytes.now }
{
    u32_at(bytes, 16) == crc_within(bytes, u32_at(bytes, 12) as usize)
}

fn header_in(bytes: &[u8]) -> Header
    requires { 92 ≤ length bytes.now }
    ensures { HeaderFields result bytes.now }
{
    Header {
        my: u64_at(bytes, 24),
        alternate: u64_at(bytes, 32),
        first: u64_at(bytes, 40),
        last: u64_at(bytes, 48),
        disk: guid_at(bytes, 56),
        array: u64_at(bytes, 72),
        count: u32_at(bytes, 80),
        entry_size: u32_at(bytes, 84),
        array_crc: u32_at(bytes, 88),
    }
}

fn checked_header(bytes: &[u8], sector_size: usize) -> Result<Header, CopyError>
    requires enough { 512 ≤ sector_size }
    requires whole { length bytes.now ≡ sector_size }
    ensures ok { IfOk result (λ h. HeaderBytes sector_size h bytes.now) }
    ensures err { IfErr result (λ e. IsHeaderFault sector_size e bytes.now) }
{
    if !has_signature(bytes) {
        return Err(CopyError::Signature);
    }
    if u32_at(bytes, 8) != REVISION {
        return Err(CopyError::Revision);
    }
    let size = u32_at(bytes, 12);
    if size < HEADER_SIZE || size as usize > sector_size {
        return Err(CopyError::HeaderSize);
    }
    if !has_crc(bytes) {
        return Err(CopyError::HeaderCrc);
    }
    Ok(header_in(bytes))
}

/// The header that a sector is, or the first of `Signature`, `Revision`, `HeaderSize` and `HeaderCrc` that holds.
pub fn decode_header<const B: usize>(bytes: &Sector<B>) -> Result<Header, CopyError>
    requires { IsSectorSize B }
    ensures ok { IfOk result (λ h. HeaderBytes B h bytes.now) }
    ensures err { IfErr result (λ e. IsHeaderFault B e bytes.now) }
{
    checked_header(&bytes[..], B)
}

#[tactic(auto, unfolding(crate::specs::inner::Copies::unsummed_from))]
fn unsummed(header: &Header) -> [u8; 92]
    ensures bytes { result ≡ unsummed_from header.now header.now.disk.0 }
    ensures fits { HeaderFits header.now }
{
    let mut bytes = [0; 92];
    put_u64(&mut bytes, 0, SIGNATURE);
    put_u32(&mut bytes, 8, REVISION);
    put_u32(&mut bytes, 12, HEADER_SIZE);
    put_u64(&mut bytes, 24, header.my);
    put_u64(&mut bytes, 32, header.alternate);
    put_u64(&mut bytes, 40, header.first);
    put_u64(&mut bytes, 48, header.last);
    put_guid(&mut bytes, 56, &header.disk);
    put_u64(&mut bytes, 72, header.array);
    put_u32(&mut bytes, 80, header.count);
    put_u32(&mut bytes, 84, header.entry_size);
    put_u32(&mut bytes, 88, header.array_crc);
    bytes
}

#[tactic(auto, unfolding(crate::specs::inner::Copies::summed_from))]
fn summed(header: &Header) -> [u8; 92]
    ensures bytes { result ≡ summed_from header.now header.now.disk.0 }
    ensures fits { HeaderFits header.now }
    ensures crc { crc_of (unsummed_from header.now header.now.disk.0) < 2 ^ 32 }
{
    let mut bytes = unsummed(header);
    let crc = crc32(&bytes);
    put_u32(&mut bytes, 16, crc);
    bytes
}

/// The sector of a header, of size 92, with its CRC, and with zeros where it says nothing.
pub fn encode_header<const B: usize>(header: &Header) -> Sector<B>
    requires { IsSectorSize B }
    ensures header { HeaderBytes B header.now result }
    ensures size { header_size result ≡ 92 }
    ensures reserved { slice_range result 20 24 ≡ replicate 4 0 }
    ensures rest { drop 92 result ≡ replicate (B - 92) 0 }
{
    let front = summed(header);
    let mut bytes = [0; B];
    bytes[..92].copy_from_slice(&front);
    bytes
}
