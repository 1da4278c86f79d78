//! Numbers and GUIDs in bytes.

ghost use Rattle.std.specs.Prelude.{◌≡◌, ◌+◌, ◌≤◌, ◌<◌, ◌^◌, length, slice_range};
ghost use Rattle.byteorder.specs.Endian.{little_bytes};
ghost use Rattle.pt_sector.specs.Sectors.{number_at};
ghost use Rattle.pt_gpt.specs.inner.Entries.{put_at};

use byteorder::{ByteOrder, LittleEndian};
use pt_guid::Guid;

pub(crate) fn guid_at(bytes: &[u8], at: usize) -> Guid
    requires { at + 16 ≤ length bytes.now }
    ensures { result.0 ≡ slice_range bytes.now at (at + 16) }
{
    let mut stored = [0; 16];
    stored.copy_from_slice(&bytes[at..at + 16]);
    Guid(stored)
}

pub(crate) fn u32_at(bytes: &[u8], at: usize) -> u32
    requires { at + 4 ≤ length bytes.now }
    ensures { result ≡ number_at at 4 bytes.now }
{
    LittleEndian::read_u32(&bytes[at..at + 4])
}

pub(crate) fn u64_at(bytes: &[u8], at: usize) -> u64
    requires { at + 8 ≤ length bytes.now }
    ensures { result ≡ number_at at 8 bytes.now }
{
    LittleEndian::read_u64(&bytes[at..at + 8])
}

pub(crate) fn put_guid(bytes: &mut [u8], at: usize, guid: &Guid)
    requires { at + 16 ≤ length bytes.old }
    ensures put { bytes.new ≡ put_at at guid.now.0 bytes.old }
    ensures fits { length guid.now.0 ≡ 16 }
{
    bytes[at..at + 16].copy_from_slice(&guid.0);
}

pub(crate) fn put_u32(bytes: &mut [u8], at: usize, number: u32)
    requires { at + 4 ≤ length bytes.old }
    ensures put { bytes.new ≡ put_at at (little_bytes 4 number) bytes.old }
    ensures fits { number < 2 ^ 32 }
{
    LittleEndian::write_u32(&mut bytes[at..at + 4], number);
}

pub(crate) fn put_u64(bytes: &mut [u8], at: usize, number: u64)
    requires { at + 8 ≤ length bytes.old }
    ensures put { bytes.new ≡ put_at at (little_bytes 8 number) bytes.old }
    ensures fits { number < 2 ^ 64 }
{
    LittleEndian::write_u64(&mut bytes[at..at + 8], number);
}
