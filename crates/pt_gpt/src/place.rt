//! Where the parts of a copy stand.

ghost use Rattle.std.specs.Prelude.{◌≡◌, ◌+◌, ◌*◌, ◌≤◌, ◌↔◌, IsTrue, OnOk, IfErr};
ghost use Rattle.pt_sector.specs.Sectors.{IsSectorSize};
ghost use Rattle.pt_gpt.specs.Copies.{array_len, HasRoom, edge, counted, header_place, array_place, IsPlaced, IsPlaceFault};

use crate::error::CopyError;
use crate::header::Header;
use crate::table::Side;
use crate::view::ENTRY_SIZE;

/// The most entries that a table has, and the number that this project makes.
pub const MOST_ENTRIES: usize = 128;

/// How many bytes an array of that many entries takes.
pub(crate) const ARRAY_SIZE: usize = MOST_ENTRIES * ENTRY_SIZE;

/// How many sectors an array of 128 entries takes: 32 of 512 bytes, or 4 of 4096.
pub fn array_sectors<const B: usize>() -> u64
    requires { IsSectorSize B }
    ensures value { result ≡ array_len B }
    ensures few { result ≤ 32 }
{
    (ARRAY_SIZE / B) as u64
}

/// Whether so many sectors have room for a GPT: for sector 0, both headers, both arrays and one usable sector.
pub fn has_room<const B: usize>(sectors: u64) -> bool
    requires { IsSectorSize B }
    ensures { IsTrue result ↔ HasRoom B sectors }
{
    sectors >= 2 * array_sectors::<B>() + 4
}

/// The first usable sector of a new GPT, behind the primary header and a whole array. Its last usable sector is as far from
/// the disk's end.
pub fn first_usable<const B: usize>() -> u64
    requires { IsSectorSize B }
    ensures value { result ≡ edge B }
    ensures few { result ≤ 34 }
{
    array_sectors::<B>() + 2
}

/// How many sectors an array of `count` entries takes.
pub fn counted_sectors<const B: usize>(count: u32) -> u64
    requires size { IsSectorSize B }
    requires most { count ≤ 128 }
    ensures value { result ≡ counted B count }
    ensures enough { count * 128 ≤ result * B }
    ensures few { result ≤ array_len B }
    ensures some { 1 ≤ count → 1 ≤ result }
{
    (u64::from(count) * ENTRY_SIZE as u64 + (B as u64 - 1)) / B as u64
}

/// The sector of a side's header on a disk of so many sectors.
pub fn header_at(side: Side, sectors: u64) -> u64
    requires { 2 ≤ sectors }
    ensures { result ≡ header_place side sectors }
{
    match side {
        Side::Primary => 1,
        Side::Backup => sectors - 1,
    }
}

/// The first sector of a side's array on a disk of so many sectors.
pub fn array_at<const B: usize>(side: Side, sectors: u64) -> u64
    requires size { IsSectorSize B }
    requires room { HasRoom B sectors }
    ensures { result ≡ array_place B side sectors }
{
    match side {
        Side::Primary => 2,
        Side::Backup => sectors - (array_sectors::<B>() + 1),
    }
}

// Whether a header's fields are those of a table on this side, or the first rule that they break.
pub(crate) fn check_place<const B: usize>(
    header: &Header,
    side: Side,
    sectors: u64,
) -> Result<(), CopyError>
    requires size { IsSectorSize B }
    requires room { HasRoom B sectors }
    ensures ok { OnOk result (IsPlaced B side sectors header.now) }
    ensures err { IfErr result (λ e. IsPlaceFault B side sectors header.now e) }
{
    if header.my != header_at(side, sectors) {
        return Err(CopyError::MyLba);
    }
    if header.array != array_at::<B>(side, sectors) {
        return Err(CopyError::ArrayPlace);
    }
    if header.count < 1
        || header.count > MOST_ENTRIES as u32
        || header.entry_size != ENTRY_SIZE as u32
    {
        return Err(CopyError::EntryShape);
    }
    let edge = first_usable::<B>();
    if header.first < edge || header.first > header.last || header.last > sectors - edge {
        return Err(CopyError::UsableRange);
    }
    Ok(())
}
