//! Reading a label from the second sector of a slice.

ghost use Rattle.std.specs.Prelude.{◌≡◌, ◌<◌, ◌≤◌, ◌+◌, ◌↔◌, ℕ, [], ◌∷◌, None, IfOk, IfErr, IsTrue, length, slice_range, slice_index_or};
ghost use Rattle.pt_sector.specs.Sectors.{IsSectorSize, number_at};
ghost use Rattle.pt_bsd.specs.Labels.{geometry_at, counted_in, HasMagic, HasMagics, HasCount, HasSum, HasSectorSize, HasRaw};
ghost use Rattle.pt_bsd.specs.Labels.{HasLabelFields, HasEntry, HasEntries, IsEntry, LabelBytes, IsLabelFault};

use crate::label::{Label, LabelEntry, LabelError};
use byteorder::{ByteOrder, LittleEndian};
use pt_sector::Sector;
use pt_sum::xor16;

/// The first and the last number of a label's head.
pub(crate) const MAGIC: u32 = 0x8256_4557;

/// Where the entries begin.
pub(crate) const ENTRIES: usize = 148;

/// How many bytes an entry has.
pub(crate) const ENTRY: usize = 16;

fn starts_with_magic(bytes: &[u8]) -> bool
    requires { 4 ≤ length bytes.now }
    ensures { IsTrue result ↔ HasMagic bytes.now }
{
    LittleEndian::read_u32(&bytes[..4]) == MAGIC
}

fn has_magics(bytes: &[u8]) -> bool
    requires { 512 ≤ length bytes.now }
    ensures { IsTrue result ↔ HasMagics bytes.now }
{
    starts_with_magic(bytes) && LittleEndian::read_u32(&bytes[132..136]) == MAGIC
}

fn counted(bytes: &[u8]) -> usize
    requires { 512 ≤ length bytes.now }
    ensures { result ≡ counted_in bytes.now }
{
    LittleEndian::read_u16(&bytes[138..140]) as usize
}

fn has_count(bytes: &[u8]) -> bool
    requires { 512 ≤ length bytes.now }
    ensures { IsTrue result ↔ HasCount bytes.now }
{
    let count = counted(bytes);
    3 <= count && count <= 8
}

#[tactic(auto, unfolding(crate::specs::Labels::HasSum))]
fn has_sum(bytes: &[u8]) -> bool
    requires long { 512 ≤ length bytes.now }
    requires count { HasCount bytes.now }
    ensures { IsTrue result ↔ HasSum bytes.now }
{
    let end = ENTRIES + ENTRY * counted(bytes);
    xor16(&bytes[..end]) == 0
}

fn has_sector_size(bytes: &[u8]) -> bool
    requires { 512 ≤ length bytes.now }
    ensures { IsTrue result ↔ HasSectorSize bytes.now }
{
    LittleEndian::read_u32(&bytes[40..44]) == 512
}

fn has_raw(bytes: &[u8], slice_first: u64, slice_len: u64) -> bool
    requires { 512 ≤ length bytes.now }
    ensures { IsTrue result ↔ HasRaw slice_first slice_len bytes.now }
{
    let size = LittleEndian::read_u32(&bytes[180..184]) as u64;
    let offset = LittleEndian::read_u32(&bytes[184..188]) as u64;
    size == slice_len && (offset == 0 || offset == slice_first)
}

fn name_at(bytes: &[u8], at: usize) -> [u8; 16]
    requires { at + 16 ≤ length bytes.now }
    ensures { result ≡ slice_range bytes.now at (at + 16) }
{
    let mut name = [0; 16];
    name.copy_from_slice(&bytes[at..at + 16]);
    name
}

fn entry_at(bytes: &[u8], at: usize) -> LabelEntry
    requires { at + 16 ≤ length bytes.now }
    ensures { HasEntry result at bytes.now }
{
    LabelEntry {
        size: LittleEndian::read_u32(&bytes[at..at + 4]),
        offset: LittleEndian::read_u32(&bytes[at + 4..at + 8]),
        fragment: LittleEndian::read_u32(&bytes[at + 8..at + 12]),
        fstype: bytes[at + 12],
        frag: bytes[at + 13],
        cpg: LittleEndian::read_u16(&bytes[at + 14..at + 16]),
    }
}

fn kept_in(bytes: &[u8]) -> [u8; 68]
    requires { 512 ≤ length bytes.now }
    ensures { result ≡ slice_range bytes.now 64 132 }
{
    let mut kept = [0; 68];
    kept.copy_from_slice(&bytes[64..132]);
    kept
}

fn geometry_in(bytes: &[u8]) -> [u32; 4]
    requires { 512 ≤ length bytes.now }
    ensures { result ≡ geometry_at bytes.now }
{
    [
        LittleEndian::read_u32(&bytes[44..48]),
        LittleEndian::read_u32(&bytes[48..52]),
        LittleEndian::read_u32(&bytes[52..56]),
        LittleEndian::read_u32(&bytes[56..60]),
    ]
}

fn entries_in(bytes: &[u8]) -> [Option<LabelEntry>; 8]
    requires long { 512 ≤ length bytes.now }
    requires count { HasCount bytes.now }
    ensures places { length result ≡ 8 }
    ensures each { (k : ℕ) → k < 8 → IsEntry (slice_index_or result k None) k bytes.now }
{
    let mut entries = [None; 8];
    for k in 0..counted(bytes) {
        entries[k] = Some(entry_at(bytes, ENTRIES + ENTRY * k));
    }
    entries
}

fn label_in(bytes: &[u8]) -> Label
    requires long { 512 ≤ length bytes.now }
    requires count { HasCount bytes.now }
    ensures fields { HasLabelFields result bytes.now }
    ensures entries { HasEntries result bytes.now }
{
    Label {
        kind: LittleEndian::read_u16(&bytes[4..6]),
        subtype: LittleEndian::read_u16(&bytes[6..8]),
        type_name: name_at(bytes, 8),
        pack_name: name_at(bytes, 24),
        geometry: geometry_in(bytes),
        unit: LittleEndian::read_u32(&bytes[60..64]),
        kept: kept_in(bytes),
        bbsize: LittleEndian::read_u32(&bytes[140..144]),
        sbsize: LittleEndian::read_u32(&bytes[144..148]),
        entries: entries_in(bytes),
    }
}

fn checked_label(bytes: &[u8], slice_first: u64, slice_len: u64) -> Result<Label, LabelError>
    requires { 512 ≤ length bytes.now }
    ensures ok { IfOk result (λ l. LabelBytes l slice_first slice_len bytes.now) }
    ensures err { IfErr result (λ e. IsLabelFault e slice_first slice_len bytes.now) }
{
    if !has_magics(bytes) {
        return Err(LabelError::Magic);
    }
    if !has_count(bytes) {
        return Err(LabelError::Count);
    }
    if !has_sum(bytes) {
        return Err(LabelError::Checksum);
    }
    if !has_sector_size(bytes) {
        return Err(LabelError::SectorSize);
    }
    if !has_raw(bytes, slice_first, slice_len) {
        return Err(LabelError::RawPartition);
    }
    Ok(label_in(bytes))
}

/// The label in a slice's second sector, the slice starting at sector `slice_first` and having `slice_len` sectors.
///
/// Its entry c must have the slice's length and start at 0 or at `slice_first`; an offset is at most 4294967295, so
/// a slice that starts past it has no absolute form. An error is the first in the order of `LabelError`.
pub fn decode_label<const B: usize>(
    sector: &Sector<B>,
    slice_first: u64,
    slice_len: u64,
) -> Result<Label, LabelError>
    requires size { IsSectorSize B }
    ensures ok { IfOk result (λ l. LabelBytes l slice_first slice_len sector.now) }
    ensures err { IfErr result (λ e. IsLabelFault e slice_first slice_len sector.now) }
{
    checked_label(&sector[..], slice_first, slice_len)
}

/// Whether a sector begins with the magic, as a label does and as the rest of a broken one may.
pub fn bears_magic<const B: usize>(sector: &Sector<B>) -> bool
    requires size { IsSectorSize B }
    ensures { IsTrue result ↔ HasMagic sector.now }
{
    starts_with_magic(&sector[..])
}
