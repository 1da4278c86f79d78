//! The entries in a sector of an array.

ghost use Rattle.std.specs.Prelude.{◌≡◌, ◌<◌, ◌≤◌, ◌+◌, ◌*◌, ◌↔◌, IsTrue, length, slice_range};
ghost use Rattle.pt_sector.specs.Sectors.{IsSectorSize};
ghost use Rattle.pt_gpt.specs.Entries.{EntryIs};
ghost use Rattle.pt_follow.specs.Follow.{SectorHas};
ghost use Rattle.pt_follow.specs.inner.Follow.{entries_with};

use pt_gpt::{ENTRY_SIZE, Entry, EntryView};
use pt_sector::Sector;

// Whether entry `i` of the bytes is this one.
fn is_entry(bytes: &[u8], i: usize, entry: &Option<Entry>) -> bool
    requires { i * 128 + 128 ≤ length bytes.now }
    ensures { IsTrue result ↔ EntryIs entry.now (slice_range bytes.now (i * 128) (i * 128 + 128)) }
{
    EntryView::in_part(bytes, i).entry() == *entry
}

// Whether the bytes, as sector `k` of an array, have these entries.
pub(crate) fn has_entries<const B: usize>(
    entries: &[Option<Entry>],
    k: u64,
    bytes: &Sector<B>,
) -> bool
    requires size { IsSectorSize B }
    requires few { k < 128 }
    ensures { IsTrue result ↔ SectorHas B entries.now k bytes.now }
{
    let first = k as usize * (B / ENTRY_SIZE);
    for i in 0..B / ENTRY_SIZE {
        if first + i < entries.len() && !is_entry(&bytes[..], i, &entries[first + i]) {
            return false;
        }
    }
    true
}

// Puts the bytes of sector `k` of an array among those of its entries: as many of them as count.
pub(crate) fn put_sector<const B: usize>(entries: &mut Vec<u8>, k: u64, bytes: &Sector<B>)
    requires size { IsSectorSize B }
    requires few { k < 128 }
    requires within { k * B ≤ length entries.old.items }
    ensures { entries.new.items ≡ entries_with B entries.old.items k bytes.now }
{
    let at = k as usize * B;
    let taken = (entries.len() - at).min(B);
    let now = &bytes[..];
    entries[at..at + taken].copy_from_slice(&now[..taken]);
}
