//! Bytes that recovery can't tell apart: in whatever role it reads their sector, they say the same.

ghost use Rattle.std.specs.Prelude.{◌≡◌, ◌≤◌, ◌<◌, ◌+◌, ◌↔◌, ℕ, IsTrue, length, take};
ghost use Rattle.pt_sector.specs.Sectors.{Sectors, IsSectorSize, sector};
ghost use Rattle.pt_gpt.specs.Copies.{HasRoom, array_len, array_place};
ghost use Rattle.pt_recover.specs.Denotes.{Denotes, IsMbrDisk, SameMeaning};
ghost use Rattle.pt_recover.specs.Alike.{IsAlike, IsCounted, ReadsAlike, SameEbrs, SameHeaders, SameHeads, SameLabels, SaysSame};

use crate::body::records_of;
use pt_bsd::bears_magic;
use pt_gpt::{Side, array_at, array_sectors, decode_header, has_room};
use pt_mbr::decode_ebr;
use pt_members::{Body, Layout};
use pt_sector::{Lba, Sector};

/// How many bytes a label has at most, with eight entries.
const LABEL: usize = 276;

/// How many bytes the fields of a header take.
const HEADER: usize = 92;

fn same_front(x: &[u8], y: &[u8], count: usize) -> bool
    requires x { count ≤ length x.now }
    requires y { count ≤ length y.now }
    ensures { IsTrue result ↔ (take count x.now ≡ take count y.now) }
{
    x[..count] == y[..count]
}

fn same_heads<const B: usize>(x: &Sector<B>, y: &Sector<B>) -> bool
    requires { IsSectorSize B }
    ensures { IsTrue result → SameHeads x.now y.now }
{
    match (records_of(x), records_of(y)) {
        (Some(m), Some(n)) => m == n,
        (None, None) => true,
        _ => false,
    }
}

fn same_ebrs<const B: usize>(x: &Sector<B>, y: &Sector<B>) -> bool
    requires { IsSectorSize B }
    ensures { IsTrue result → SameEbrs x.now y.now }
{
    match (decode_ebr(x, Lba(0), Lba(0)), decode_ebr(y, Lba(0), Lba(0))) {
        (Ok(e), Ok(f)) => e == f,
        (Err(_), Err(_)) => true,
        _ => false,
    }
}

fn same_labels<const B: usize>(x: &Sector<B>, y: &Sector<B>) -> bool
    requires { IsSectorSize B }
    ensures { IsTrue result → SameLabels x.now y.now }
{
    if !bears_magic(x) && !bears_magic(y) {
        return true;
    }
    same_front(x, y, LABEL)
}

fn same_headers<const B: usize>(x: &Sector<B>, y: &Sector<B>) -> bool
    requires { IsSectorSize B }
    ensures { IsTrue result → SameHeaders B x.now y.now }
{
    match (decode_header(x), decode_header(y)) {
        (Ok(_), Ok(_)) => same_front(x, y, HEADER),
        (Err(_), Err(_)) => true,
        _ => false,
    }
}

fn same_at_head<const B: usize>(at: Lba, x: &Sector<B>, y: &Sector<B>) -> bool
    requires { IsSectorSize B }
    ensures { IsTrue result → at.0 ≡ 0 → SameHeads x.now y.now }
{
    if at.0 != 0 {
        return true;
    }
    same_heads(x, y)
}

/// Whether the bytes of a sector say the same in each role that it may have, but for that of a part of an array.
fn says_same<const B: usize>(at: Lba, x: &Sector<B>, y: &Sector<B>) -> bool
    requires { IsSectorSize B }
    ensures { IsTrue result → SaysSame B at.0 x.now y.now }
{
    if !same_at_head(at, x, y) {
        return false;
    }
    if !same_ebrs(x, y) {
        return false;
    }
    if !same_labels(x, y) {
        return false;
    }
    same_headers(x, y)
}

fn is_in_array<const B: usize>(side: Side, sectors: u64, at: Lba) -> bool
    requires size { IsSectorSize B }
    requires room { HasRoom B sectors }
    ensures { IsTrue result ↔ (array_place B side sectors ≤ at.0) × (at.0 < array_place B side sectors + array_len B) }
{
    let first = array_at::<B>(side, sectors);
    first <= at.0 && at.0 - first < array_sectors::<B>()
}

/// Whether a sector is in the place of an array: a header counts no other one.
fn is_array_place<const B: usize>(sectors: u64, at: Lba) -> bool
    requires { IsSectorSize B }
    ensures { (d : Sectors) → length d ≡ sectors → IsCounted B d at.0 → IsTrue result }
{
    if !has_room::<B>(sectors) {
        return false;
    }
    is_in_array::<B>(Side::Primary, sectors, at) || is_in_array::<B>(Side::Backup, sectors, at)
}

/// Whether a disk that denotes a layout, or nothing, is no MBR disk for all that the layout says.
fn may_have_array(denoted: &Option<Layout>) -> bool
    ensures { (b : ℕ) (d : Sectors) → Denotes b d denoted.now → ¬ IsMbrDisk d → IsTrue result }
{
    match denoted {
        Some(layout) => match &layout.body {
            Body::Mbr { .. } => false,
            Body::Gpt(_) => true,
        },
        None => true,
    }
}

/// Whether a header may count a sector among those of its array, on a disk of so many sectors that denotes a layout, or nothing.
fn may_be_counted<const B: usize>(denoted: &Option<Layout>, sectors: u64, at: Lba) -> bool
    requires { IsSectorSize B }
    ensures { (d : Sectors) → length d ≡ sectors → Denotes B d denoted.now → ¬ IsMbrDisk d → IsCounted B d at.0 → IsTrue result }
{
    if !may_have_array(denoted) {
        return false;
    }
    is_array_place::<B>(sectors, at)
}

/// Whether other bytes in a sector are alike to those that stand there: recovery, whatever it reads the sector for, finds the same, by the
/// same sectors. `denoted` is what the disk denotes, which has so many sectors. Where it is false they may be alike all the same.
pub fn is_alike<const B: usize>(
    denoted: &Option<Layout>,
    sectors: u64,
    at: Lba,
    standing: &Sector<B>,
    other: &Sector<B>,
) -> bool
    requires { IsSectorSize B }
    ensures { IsTrue result → (d : Sectors) → length d ≡ sectors → Denotes B d denoted.now → sector d at.0 ≡ standing.now
        → IsAlike B d at.0 other.now }
{
    if same_front(other, standing, B) {
        return true;
    }
    if may_be_counted::<B>(denoted, sectors, at) {
        return false;
    }
    says_same(at, other, standing)
}

/// A disk whose sectors are alike to those that recovery of another reads denotes the same, by the same sectors.
pub fn alike_decides()
    ensures { (b : ℕ) (c d : Sectors) → ReadsAlike b c d → SameMeaning b c d }
{}
