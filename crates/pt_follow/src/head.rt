//! The header that a sector is.

ghost use Rattle.std.specs.Prelude.{◌↔◌, IsTrue};
ghost use Rattle.pt_sector.specs.Sectors.{IsSectorSize};
ghost use Rattle.pt_gpt.specs.Copies.{HasRoom, HasShape, HasRange, IsPlaced};
ghost use Rattle.pt_follow.specs.inner.Follow.{HeadOf};

use pt_gpt::{
    ENTRY_SIZE, Header, MOST_ENTRIES, Side, array_at, decode_header, first_usable, header_at,
};
use pt_sector::Sector;

fn has_shape(header: &Header) -> bool
    ensures { IsTrue result ↔ HasShape header.now }
{
    header.count >= 1
        && header.count <= MOST_ENTRIES as u32
        && header.entry_size == ENTRY_SIZE as u32
}

fn has_range<const B: usize>(header: &Header, sectors: u64) -> bool
    requires size { IsSectorSize B }
    requires room { HasRoom B sectors }
    ensures { IsTrue result ↔ HasRange B sectors header.now }
{
    let edge = first_usable::<B>();
    header.first >= edge && header.first <= header.last && header.last <= sectors - edge
}

// Whether a header's fields are those of a table on this side.
fn is_placed<const B: usize>(header: &Header, side: Side, sectors: u64) -> bool
    requires size { IsSectorSize B }
    requires room { HasRoom B sectors }
    ensures { IsTrue result ↔ IsPlaced B side sectors header.now }
{
    header.my == header_at(side, sectors)
        && header.array == array_at::<B>(side, sectors)
        && has_shape(header)
        && has_range::<B>(header, sectors)
}

// The header of a table on this side that a sector is, if it is one.
pub(crate) fn head_in<const B: usize>(bytes: &Sector<B>, side: Side, sectors: u64) -> Option<Header>
    requires size { IsSectorSize B }
    requires room { HasRoom B sectors }
    ensures { HeadOf B sectors side bytes.now result }
{
    let header = match decode_header::<B>(bytes) {
        Ok(header) => header,
        Err(_) => return None,
    };
    if !is_placed::<B>(&header, side, sectors) {
        return None;
    }
    Some(header)
}
