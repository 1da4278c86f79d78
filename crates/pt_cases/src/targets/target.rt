//! What a sector must hold, what is asked of it, and the order of several.

ghost use Rattle.std.specs.Prelude.{◌<◌, ◌≢◌, ◌≡◌, ◌+◌, ◌≤◌, ◌↔◌, IfSome, IfNone, IsTrue, ℕ, length};
ghost use Rattle.pt_recover.specs.Spans.{IsIn};
ghost use Rattle.pt_members.specs.Tables.{OwnedOf};
ghost use Rattle.pt_cases.specs.Targets.{Differs, IsOfKind, IsUnreadNew, IsOwnedChange, IsOwnedOf, IsSectorOf, NoneHas};
ghost use Rattle.pt_cases.specs.Targets.{InSectorOrder, HasTwoOfOne, sector_of};
ghost use Rattle.pt_cases.specs.inner.Targets.{HasTwinTargets};
ghost use Rattle.pt_cases.specs.declared.targets.target.TargetKind.TheVariants.{Changes};

use pt_members::is_owned;
use pt_recover::{Layout, Trace};
use pt_sector::{Lba, Sector};

/// Why a sector is among the targets.
#[derive(Clone, Copy)]
pub enum TargetKind {
    /// It holds what it must.
    Stays,
    /// It gets a label, and the disk's layout has none there.
    New,
    /// What stands there changes.
    Changes,
}

/// What a sector of a wanted layout must hold.
#[derive(Clone, Copy)]
pub struct Target<const B: usize> {
    /// The sector.
    pub at: Lba,
    /// What it must hold.
    pub bytes: Sector<B>,
    /// What it holds on the disk.
    pub under: Sector<B>,
    pub kind: TargetKind,
}

fn same_bytes(bytes: &[u8], others: &[u8]) -> bool
    ensures { IsTrue result ↔ (bytes.now ≡ others.now) }
{
    *bytes == *others
}

/// Whether its sector holds something else.
pub fn is_change<const B: usize>(target: &Target<B>) -> bool
    ensures { IsTrue result ↔ Differs target.now }
{
    !same_bytes(&target.bytes, &target.under)
}

// Whether it is of this kind.
fn is_of<const B: usize>(target: &Target<B>, kind: TargetKind) -> bool
    ensures { IsTrue result ↔ IsOfKind kind target.now }
{
    target.kind == kind
}

/// Whether a partition of the layout owns the sector; nothing owns none.
pub fn owned_in<const B: usize>(old: &Option<Layout>, at: Lba) -> bool
    ensures { IsTrue result ↔ OwnedOf B old.now at.0 }
{
    match old {
        None => false,
        Some(layout) => is_owned::<B>(layout, at),
    }
}

// Whether its sector holds something else, and a partition owns it.
fn is_owned_change<const B: usize>(target: &Target<B>, old: &Option<Layout>) -> bool
    ensures { IsTrue result ↔ IsOwnedChange old.now target.now }
{
    is_change(target) && owned_in::<B>(old, target.at)
}

// Whether it is of this kind, and a partition owns its sector.
fn is_owned_of<const B: usize>(target: &Target<B>, old: &Option<Layout>, kind: TargetKind) -> bool
    ensures { IsTrue result ↔ IsOwnedOf old.now kind target.now }
{
    is_of(target, kind) && owned_in::<B>(old, target.at)
}

/// Whether it is a new label, and not one that stands in its sector where that is one of these.
pub fn is_unread_new<const B: usize>(target: &Target<B>, guarded: &Trace) -> bool
    ensures { IsTrue result ↔ IsUnreadNew guarded.now target.now }
{
    is_of(target, TargetKind::New) && (is_change(target) || !guarded.contains(target.at))
}

/// The sector of the first target that replaces what stands there by something else.
pub fn first_change<const B: usize>(targets: &[Target<B>]) -> Option<Lba>
    ensures some { IfSome result (λ at. IsSectorOf (IsOfKind Changes) targets.now at.0) }
    ensures none { IfNone result (NoneHas (IsOfKind Changes) targets.now) }
{
    for target in targets {
        if is_of(target, TargetKind::Changes) {
            return Some(target.at);
        }
    }
    None
}

/// The sector of the first target that isn't met yet and that a partition owns.
pub fn first_owned_change<const B: usize>(
    old: &Option<Layout>,
    targets: &[Target<B>],
) -> Option<Lba>
    ensures some { IfSome result (λ at. IsSectorOf (IsOwnedChange old.now) targets.now at.0) }
    ensures none { IfNone result (NoneHas (IsOwnedChange old.now) targets.now) }
{
    for target in targets {
        if is_owned_change(target, old) {
            return Some(target.at);
        }
    }
    None
}

/// The sector of the first target of this kind that a partition owns.
pub fn first_owned_of_kind<const B: usize>(
    old: &Option<Layout>,
    targets: &[Target<B>],
    kind: TargetKind,
) -> Option<Lba>
    ensures some { IfSome result (λ at. IsSectorOf (IsOwnedOf old.now kind) targets.now at.0) }
    ensures none { IfNone result (NoneHas (IsOwnedOf old.now kind) targets.now) }
{
    for target in targets {
        if is_owned_of(target, old, kind) {
            return Some(target.at);
        }
    }
    None
}

// Whether two neighbours are of one sector.
fn has_twins<const B: usize>(targets: &[Target<B>]) -> bool
    ensures { IsTrue result ↔ HasTwinTargets targets.now }
{
    for k in 1..targets.len() {
        if targets[k - 1].at.0 == targets[k].at.0 {
            return true;
        }
    }
    false
}

/// The targets by ascending sector; none where two are of one sector. It takes no memory.
pub fn in_order<const B: usize>(targets: Vec<Target<B>>) -> Option<Vec<Target<B>>>
    ensures some { IfSome result (λ ts. InSectorOrder targets.entry.items ts.items) }
    ensures none { IfNone result (HasTwoOfOne targets.entry.items) }
{
    let mut sorted = targets;
    sorted.sort_unstable_by_key(
        |target|
            ensures { result ≡ target.now.at.0 }
        { target.at.0 },
    );
    if has_twins(&sorted) {
        None
    } else {
        Some(sorted)
    }
}
