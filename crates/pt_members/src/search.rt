//! The search for a member.

ghost use Rattle.std.specs.Prelude.{◌↔◌, IsTrue};
ghost use Rattle.pt_members.specs.Members.{Exists, Holds};
ghost use Rattle.pt_members.specs.inner.Tables.{IsAsWanted, Found};

use crate::layout::Layout;
use crate::member::{Kind, Member};
use crate::slots::count_slots;
use pt_path::Path;
use pt_sector::Lba;

/// What a search looks for.
#[derive(Clone, Copy)]
pub enum Wanted {
    /// A leaf that has this sector.
    LeafWith(Lba),
    /// A leaf of this path that has more sectors than this.
    LeafNamed(Path, u64),
    /// A slice that has this sector.
    SliceWith(Lba),
}

pub fn exists(m: &Member) -> bool
    ensures { IsTrue result ↔ Exists m.now }
{
    m.first <= m.last && m.last < 1 << 63
}

fn holds(m: &Member, lba: Lba) -> bool
    ensures { IsTrue result ↔ Holds m.now lba.0 }
{
    m.first <= u128::from(lba.0) && u128::from(lba.0) <= m.last
}

fn answers(m: &Member, wanted: &Wanted) -> bool
    ensures { IsTrue result ↔ IsAsWanted wanted.now m.now }
{
    if !exists(m) {
        return false;
    }
    match wanted {
        Wanted::LeafWith(lba) => m.kind == Kind::Leaf && holds(m, *lba),
        Wanted::LeafNamed(path, k) => {
            m.kind == Kind::Leaf && m.path == *path && u128::from(*k) <= m.last - m.first
        }
        Wanted::SliceWith(lba) => m.kind == Kind::Slice && holds(m, *lba),
    }
}

/// A member that is as wanted, the first in path order.
pub(crate) fn find<const B: usize>(layout: &Layout, wanted: &Wanted) -> Option<Member>
    ensures { Found B layout.now wanted.now result }
{
    // an MBR has four records, whose numbers are below those of the logical partitions
    let _four = count_slots::<B>(&layout.body);
    for member in layout.members::<B>() {
        if answers(&member, wanted) {
            return Some(member);
        }
    }
    None
}
