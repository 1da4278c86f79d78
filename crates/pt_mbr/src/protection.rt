ghost use Rattle.std.specs.Prelude.{◌≡◌, ◌<◌, ◌≤◌, ◌⊎◌, ◌↔◌, IsTrue, ℕ, length, slice_index, slice_range};
ghost use Rattle.pt_sector.specs.Sectors.{IsSectorSize};
ghost use Rattle.pt_mbr.specs.Records.{IsProtective, protective_record};
ghost use Rattle.pt_mbr.specs.inner.Records.{protective_bytes};

use crate::bytes::put_bytes;
use crate::mbr::put_part;
use crate::record::{PROTECTIVE, Record, encode_record};
use pt_sector::Sector;

// The protective record of a disk.
fn record_for(sectors: u64) -> Record
    ensures { result ≡ protective_record sectors }
{
    Record {
        boot: 0,
        start_chs: [0x00, 0x02, 0x00],
        kind: PROTECTIVE,
        end_chs: [0xFF; 3],
        start: 1,
        size: sectors.saturating_sub(1).min(0xFFFF_FFFF) as u32,
    }
}

// It, three empty ones and the signature.
fn bytes_for(sectors: u64) -> [u8; 66]
    ensures { result ≡ protective_bytes sectors }
{
    let mut bytes = [0; 66];
    put_bytes(&mut bytes, 0, &encode_record(&record_for(sectors)));
    bytes[64] = 0x55;
    bytes[65] = 0xAA;
    bytes
}

/// Sector 0 of a GPT disk of `sectors` sectors: that of `sector` with the protective record in place of its first
/// record, three empty ones and the signature after it. Bytes 0 to 445, and those from 512 on, stay. UEFI 2.10, 5.2.3.
pub fn protective<const B: usize>(sectors: u64, sector: &Sector<B>) -> Sector<B>
    requires size { IsSectorSize B }
    ensures protective { IsProtective sectors result }
    ensures same { IsProtective sectors sector.now → result ≡ sector.now }
    ensures other { (i : ℕ) → (i < 446) ⊎ (512 ≤ i) → slice_index result i ≡ slice_index sector.now i }
{
    put_part(sector, 446, &bytes_for(sectors))
}

fn has_bytes(bytes: &[u8], sectors: u64) -> bool
    requires { 512 ≤ length bytes.now }
    ensures { IsTrue result ↔ (slice_range bytes.now 446 512 ≡ protective_bytes sectors) }
{
    bytes[446..512] == bytes_for(sectors)[..]
}

fn protects(bytes: &[u8], sectors: u64) -> bool
    requires { 512 ≤ length bytes.now }
    ensures { IsTrue result ↔ IsProtective sectors bytes.now }
{
    has_bytes(bytes, sectors)
}

/// Whether `sector` is sector 0 of a protected disk of `sectors` sectors: [`protective`] would change nothing.
pub fn is_protective<const B: usize>(sectors: u64, sector: &Sector<B>) -> bool
    requires size { IsSectorSize B }
    ensures { IsTrue result ↔ IsProtective sectors sector.now }
{
    protects(&sector[..], sectors)
}
