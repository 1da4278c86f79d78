//! An array of entries as its sectors.

ghost use Rattle.std.specs.Prelude.{◌≡◌, ◌+◌, ◌*◌, ◌/◌, ◌<◌, ◌≤◌, IfOk, IfSome, None, length, slice_index_or, ◌^◌};
ghost use Rattle.pt_sum.specs.Sums.{crc_of};
ghost use Rattle.pt_sector.specs.Sectors.{IsSectorSize};
ghost use Rattle.pt_gpt.specs.inner.Entries.{put_at};
ghost use Rattle.pt_gpt.specs.Entries.{EntryFits, entry_bytes};
ghost use Rattle.pt_gpt.specs.Copies.{array_len, entries_bytes, array_bytes, array_sector, AllFit, IsEncoded};

use crate::entry::{Entry, encode_entry};
use crate::place::ARRAY_SIZE;
use crate::view::ENTRY_SIZE;
use pt_sector::Sector;
use pt_sum::{Crc, crc32};
use std::alloc::{AllocError, Global};

/// A whole array, encoded once for both copies of a table.
#[derive(Drop)]
pub struct EncodedArray {
    /// The bytes of its sectors, one after another.
    pub bytes: Vec<u8>,
    /// What both headers have as its CRC-32.
    pub crc: u32,
}

fn bytes_of(entry: &Option<Entry>) -> [u8; 128]
    ensures bytes { result ≡ entry_bytes entry.now }
    ensures long { length (entry_bytes entry.now) ≡ 128 }
    ensures fits { IfSome entry.now EntryFits }
{
    encode_entry(entry.as_ref())
}

/// The CRC-32 of an array of these entries: of their number times 128 bytes.
pub fn array_crc(entries: &[Option<Entry>]) -> u32
    ensures crc { result ≡ crc_of (array_bytes entries.now) }
    ensures fits { AllFit entries.now }
{
    let mut sum = Crc::new();
    for entry in entries {
        sum.update(&bytes_of(entry));
    }
    sum.value()
}

// Entry `index`, and none past the last one.
fn entry_or_none(entries: &[Option<Entry>], index: usize) -> Option<Entry>
    ensures { result ≡ slice_index_or entries.now index None }
{
    if index < entries.len() {
        entries[index]
    } else {
        None
    }
}

fn put_entry(bytes: &mut [u8], k: usize, entry: &Option<Entry>)
    requires { k * 128 + 128 ≤ length bytes.old }
    ensures put { bytes.new ≡ put_at (k * 128) (entry_bytes entry.now) bytes.old }
    ensures long { length (entry_bytes entry.now) ≡ 128 }
{
    bytes[k * ENTRY_SIZE..k * ENTRY_SIZE + ENTRY_SIZE].copy_from_slice(&bytes_of(entry));
}

// Fills the bytes by the entries from the first on.
fn put_entries(bytes: &mut [u8], entries: &[Option<Entry>], first: usize)
    requires whole { length bytes.old ≡ length bytes.old / 128 * 128 }
    requires small { first + length bytes.old < 2 ^ 64 }
    ensures { bytes.new ≡ entries_bytes entries.now first (length bytes.old / 128) }
{
    for k in 0..bytes.len() / ENTRY_SIZE {
        put_entry(bytes, k, &entry_or_none(entries, first + k));
    }
}

/// Sector `k`, from 0 on, of the array that these entries are written as, with zeros past the last one.
pub fn encode_array_sector<const B: usize>(entries: &[Option<Entry>], k: u64) -> Sector<B>
    requires size { IsSectorSize B }
    requires within { k < array_len B }
    ensures { result ≡ array_sector B entries.now k }
{
    let mut bytes = [0; B];
    put_entries(&mut bytes, entries, k as usize * (B / ENTRY_SIZE));
    bytes
}

/// The array that these entries are written as, with zeros past the last one, and its CRC-32: of their number times 128 bytes.
pub fn encode_array(alloc: Global, entries: &[Option<Entry>]) -> Result<EncodedArray, AllocError>
    requires { length entries.now ≤ 128 }
    ensures { IfOk result (IsEncoded entries.now) }
{
    let mut bytes = Vec::with_capacity(alloc, ARRAY_SIZE)?;
    for entry in entries {
        bytes.extend_from_slice(&bytes_of(entry))?;
    }
    let crc = crc32(&bytes);
    bytes.resize(ARRAY_SIZE, 0)?;
    Ok(EncodedArray { bytes, crc })
}
