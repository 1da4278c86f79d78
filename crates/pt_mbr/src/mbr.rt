ghost use Rattle.std.specs.Prelude.{◌≡◌, ◌<◌, ◌≤◌, ◌≢◌, ◌⊎◌, ◌+◌, ◌↔◌, IsTrue, IfSome, IfNone, MatchOption, ⊤, ℕ, Option, length};
ghost use Rattle.std.specs.Prelude.{slice_index, slice_range, replicate};
ghost use Rattle.pt_sector.specs.Sectors.{IsSectorSize};
ghost use Rattle.std.specs.Option.{option_map};
ghost use Rattle.pt_mbr.specs.Records.{put_at, RecordIs, HasFields, ReadsAsUsed, IsPut, place_of, record_bytes, IsMbrFormed, MbrBytes};
ghost use Rattle.pt_mbr.specs.Records.{AreRecords, BearsProtective, HasBootIndicators, IsBootIndicator};
ghost use Rattle.pt_mbr.specs.inner.Records.{RecordFits};
ghost use Rattle.pt_mbr.specs.declared.record.Record.{Record};

use crate::bytes::{has_signature, put_bytes};
use crate::record::{PROTECTIVE, Record, encode_record, record_at};
use pt_sector::Sector;

/// A master boot record's four partition records, none where one is unused: its type or its size is 0.
#[derive(Clone, Copy, Debug, Default, PartialEq, Eq)]
pub struct Mbr {
    /// In the order of the bytes; that at index `k` stands at offset 446 + 16 `k`.
    pub records: [Option<Record>; 4],
}

fn is_boot_indicator(byte: u8) -> bool
    ensures { IsTrue result ↔ IsBootIndicator byte }
{
    byte == 0 || byte == 0x80
}

#[tactic(auto, unfolding(crate::specs::Records::HasBootIndicators))]
pub(crate) fn has_boot_indicators(bytes: &[u8]) -> bool
    requires { 512 ≤ length bytes.now }
    ensures { IsTrue result ↔ HasBootIndicators bytes.now }
{
    is_boot_indicator(bytes[446])
        && is_boot_indicator(bytes[462])
        && is_boot_indicator(bytes[478])
        && is_boot_indicator(bytes[494])
}

fn is_mbr_formed(bytes: &[u8]) -> bool
    requires { 512 ≤ length bytes.now }
    ensures { IsTrue result ↔ IsMbrFormed bytes.now }
{
    has_signature(bytes) && has_boot_indicators(bytes)
}

fn records_in(bytes: &[u8]) -> [Option<Record>; 4]
    requires { 512 ≤ length bytes.now }
    ensures { AreRecords result bytes.now }
{
    [
        record_at(bytes, 446),
        record_at(bytes, 462),
        record_at(bytes, 478),
        record_at(bytes, 494),
    ]
}

/// The four records of sector 0, none where it isn't MBR-formed: bytes 510 and 511 are 55 AA, and each of the four
/// boot indicators, also of an unused record, is 00 or 80.
pub fn decode_mbr<const B: usize>(sector: &Sector<B>) -> Option<Mbr>
    requires size { IsSectorSize B }
    ensures some { IfSome result (λ m. MbrBytes m sector.now) }
    ensures none { IfNone result (¬ IsMbrFormed sector.now) }
{
    let bytes = &sector[..];
    if !is_mbr_formed(bytes) {
        return None;
    }
    Some(Mbr {
        records: records_in(bytes),
    })
}

/// Whether one of the four records, used or not, has the type EE: offset 450, 466, 482 or 498.
///
/// A decoded [`Mbr`] can't show such a record where its size is 0.
#[tactic(auto, unfolding(crate::specs::Records::BearsProtective))]
pub fn bears_protective<const B: usize>(sector: &Sector<B>) -> bool
    requires size { IsSectorSize B }
    ensures { IsTrue result ↔ BearsProtective sector.now }
{
    sector[450] == PROTECTIVE
        || sector[466] == PROTECTIVE
        || sector[482] == PROTECTIVE
        || sector[498] == PROTECTIVE
}

// The 16 bytes of a record, or of none.
fn encoded(value: Option<&Record>) -> [u8; 16]
    ensures bytes { result ≡ record_bytes (option_map (λ r. r.now) value.entry) }
    ensures fits { MatchOption value.entry ⊤ (λ r. RecordFits r.now) }
{
    match value {
        Some(value) => encode_record(value),
        None => [0; 16],
    }
}

pub(crate) fn put_part<const B: usize>(sector: &Sector<B>, at: usize, part: &[u8]) -> Sector<B>
    requires { at + length part.now ≤ B }
    ensures put { result ≡ put_at at part.now sector.now }
    ensures fits { (i : ℕ) → slice_index sector.now i < 256 }
{
    let mut changed = *sector;
    put_bytes(&mut changed[..], at, part);
    changed
}

/// The sector with its record `k`, from 0 to 3, written as `value`: its 16 bytes, all zero for none, and no other.
///
/// The sector is that of a master or an extended boot record.
pub fn put_record<const B: usize>(sector: &Sector<B>, k: usize, value: Option<&Record>) -> Sector<B>
    requires size { IsSectorSize B }
    requires place { k < 4 }
    ensures put { IsPut (option_map (λ r. r.now) value.entry) k sector.now result }
    ensures other { (i : ℕ) → (i < place_of k) ⊎ (place_of k + 16 ≤ i) → slice_index result i ≡ slice_index sector.now i }
    ensures bytes { slice_range result (place_of k) (place_of k + 16) ≡ record_bytes (option_map (λ r. r.now) value.entry) }
    ensures fields { MatchOption value.entry (slice_range result (place_of k) (place_of k + 16) ≡ replicate 16 0)
        (λ r. HasFields r.now (place_of k) result) }
    ensures kept { (j : ℕ) (p : Option Record) → j < 4 → j ≢ k → RecordIs p (place_of j) sector.now → RecordIs p (place_of j) result }
    ensures read { ReadsAsUsed (option_map (λ r. r.now) value.entry) → RecordIs (option_map (λ r. r.now) value.entry) (place_of k) result }
{
    put_part(sector, 446 + 16 * k, &encoded(value))
}
