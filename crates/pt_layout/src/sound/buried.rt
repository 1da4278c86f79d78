//! Tables that lie in partitions.

ghost use Rattle.std.specs.Prelude.{◌≡◌, ◌≤◌, ◌<◌, ◌^◌, ◌↔◌, IsTrue};
ghost use Rattle.pt_sector.specs.Sectors.{IsSectorSize};
ghost use Rattle.pt_members.specs.Tables.{AreAlone, NextSectorIs};
ghost use Rattle.pt_members.specs.Members.{Exists};
ghost use Rattle.pt_layout.specs.Sound.{IsOwnPlace};
ghost use Rattle.pt_layout.specs.inner.Sound.{TableWithin, BuriedIn};

use pt_members::{Alone, Kind, Layout, Member, is_ebr, next_table};

// The lowest table sector from one up to another.
fn table_within<const B: usize>(
    layout: &Layout,
    alone: &Alone,
    first: u64,
    last: u64,
) -> Option<u64>
    requires size { IsSectorSize B }
    requires alone { AreAlone B layout.now alone.now }
    ensures { NextSectorIs (TableWithin B layout.now first last) 0 result }
{
    let table = next_table::<B>(layout, alone, first)?;
    if table <= last { Some(table) } else { None }
}

fn is_own_place<const B: usize>(layout: &Layout, alone: &Alone, m: &Member, lba: u64) -> bool
    requires { AreAlone B layout.now alone.now }
    ensures { IsTrue result ↔ IsOwnPlace layout.now m.now lba }
{
    m.kind == Kind::Slice
        && lba > 0
        && u128::from(lba - 1) == m.first
        && !is_ebr::<B>(layout, alone, lba)
}

// The lowest sector of a table in a leaf or slice that isn't the slice's own second one.
pub(crate) fn buried_in<const B: usize>(layout: &Layout, alone: &Alone, m: &Member) -> Option<u64>
    requires size { IsSectorSize B }
    requires alone { AreAlone B layout.now alone.now }
    requires exists { Exists m.now }
    ensures { NextSectorIs (BuriedIn B layout.now m.now) 0 result }
{
    if m.kind == Kind::Extended {
        return None;
    }
    let first = m.first as u64;
    let last = m.last as u64;
    let table = table_within::<B>(layout, alone, first, last)?;
    if is_own_place::<B>(layout, alone, m, table) {
        table_within::<B>(layout, alone, first + 2, last)
    } else {
        Some(table)
    }
}
