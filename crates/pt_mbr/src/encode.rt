ghost use Rattle.std.specs.Prelude.{◌≡◌, ◌<◌, ◌≤◌, ◌⊎◌, ◌+◌, ℕ, List, None, get_or, slice_index, slice_range};
ghost use Rattle.pt_sector.specs.Sectors.{IsSectorSize};
ghost use Rattle.pt_mbr.specs.Records.{HasSignature, place_of, record_bytes, MbrBytes};
ghost use Rattle.pt_mbr.specs.inner.Records.{IsWritten};

use crate::mbr::{Mbr, put_part, put_record};
use crate::record::Record;
use pt_sector::Sector;

// Record k as a value, and not by reference.
pub(crate) fn put_value<const B: usize>(
    sector: &Sector<B>,
    k: usize,
    value: Option<Record>,
) -> Sector<B>
    requires size { IsSectorSize B }
    requires place { k < 4 }
    ensures { IsWritten value k sector.now result }
{
    match value {
        Some(r) => put_record(sector, k, Some(&r)),
        None => put_record(sector, k, None),
    }
}

/// The sector with the four records of `mbr`, 16 zero bytes for one that is unused, and the signature: bytes 446 to 511.
///
/// What decodes is read again. An `Mbr` that no sector decodes to, as one with another boot indicator than 00 or 80, is
/// written byte by byte all the same.
pub fn encode_mbr<const B: usize>(mbr: &Mbr, under: &Sector<B>) -> Sector<B>
    requires size { IsSectorSize B }
    ensures other { (i : ℕ) → (i < 446) ⊎ (512 ≤ i) → slice_index result i ≡ slice_index under.now i }
    ensures bytes { (k : ℕ) → k < 4 → slice_range result (place_of k) (place_of k + 16) ≡ record_bytes (get_or mbr.now.records k None) }
    ensures signature { HasSignature result }
    ensures read { (b : List ℕ) → MbrBytes mbr.now b → MbrBytes mbr.now result }
{
    let sector = put_value(under, 0, mbr.records[0]);
    let sector = put_value(&sector, 1, mbr.records[1]);
    let sector = put_value(&sector, 2, mbr.records[2]);
    let sector = put_value(&sector, 3, mbr.records[3]);
    put_part(&sector, 510, &[0x55, 0xAA])
}
