//! The sectors that partitions own, in one list of runs: to ask for many of them.

ghost use Rattle.std.specs.Prelude.{◌≡◌, ◌<◌, ◌↔◌, ◌⊎◌, ℕ, IfOk, OnOk};
ghost use Rattle.pt_members.specs.inner.Members.{IsLeafWith};
ghost use Rattle.pt_members.specs.Tables.{Owns, OwnedOf};
ghost use Rattle.pt_recover.specs.Spans.{IsIn, Adds};

use crate::denoted::same_layout;
use crate::trial::Layouts;
use pt_members::{Kind, Layout, Member, exists};
use pt_recover::Trace;
use std::alloc::{AllocError, Global};

// The sectors of a leaf that exist.
fn add_leaf(owned: &mut Trace, m: &Member) -> Result<(), AllocError>
    ensures { OnOk result (Adds owned.old owned.new (IsLeafWith m.now)) }
{
    if m.kind != Kind::Leaf || !exists(m) {
        return Ok(());
    }
    owned.add(m.first as u64, m.last as u64)
}

// Those of a layout's partitions.
fn add_leaves<const B: usize>(owned: &mut Trace, layout: &Layout) -> Result<(), AllocError>
    ensures { OnOk result (Adds owned.old owned.new (Owns B layout.now)) }
{
    for member in layout.members::<B>() {
        add_leaf(owned, &member)?;
    }
    Ok(())
}

// Those of no layout: none.
fn add_owned<const B: usize>(owned: &mut Trace, layout: &Option<Layout>) -> Result<(), AllocError>
    ensures { OnOk result (Adds owned.old owned.new (OwnedOf B layout.now)) }
{
    match layout {
        Some(layout) => add_leaves::<B>(owned, layout),
        None => Ok(()),
    }
}

/// The sectors that a partition of either layout owns.
pub(crate) fn owned_in_either<const B: usize>(
    alloc: Global,
    layouts: &Layouts,
) -> Result<Trace, AllocError>
    ensures { IfOk result (λ t. (s : ℕ) → IsIn t s ↔ (OwnedOf B layouts.now.old s ⊎ OwnedOf B layouts.now.new s)) }
{
    let mut owned = Trace::new(alloc);
    add_owned::<B>(&mut owned, &layouts.old)?;
    if same_layout(&layouts.old, &layouts.new) {
        return Ok(owned);
    }
    add_owned::<B>(&mut owned, &layouts.new)?;
    Ok(owned)
}
