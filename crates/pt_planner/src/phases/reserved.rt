//! Sectors that a plan may not write, or not yet.

ghost use Rattle.std.specs.Prelude.{◌≡◌, ◌↔◌, IsTrue, take};
ghost use Rattle.pt_apply.specs.Plans.{writes_of, writes_in};
ghost use Rattle.pt_apply.specs.inner.Plans.{phases_in};
ghost use Rattle.pt_planner.specs.inner.Phases.{Touches, IsAnyReserved};
ghost use Rattle.pt_members.specs.Tables.{OwnedOf};

use pt_apply::Write;
use pt_cases::targets::owned_in;
use pt_members::{Reach, reach_of};
use pt_recover::{Layout, Trace};
use pt_sector::Lba;

/// Sectors that a plan may not write, or not yet, and those among which they are.
#[derive(Clone, Copy)]
pub(crate) enum Reserved<'a> {
    /// Those in a reach that a partition of the layout owns. An owner is searched for only of a sector in the reach.
    Owned(&'a Option<Layout>, Reach),
    /// Those of a trace.
    Guarded(&'a Trace),
}

fn is_reserved<const B: usize>(reserved: &Reserved, at: Lba) -> bool
    ensures { IsTrue result ↔ IsAnyReserved B reserved.now at.0 }
{
    match reserved {
        Reserved::Owned(layout, reach) => reach.contains(at) && owned_in::<B>(layout, at),
        Reserved::Guarded(trace) => trace.contains(at),
    }
}

fn phase_touches<const B: usize>(reserved: &Reserved, phase: &[Write<B>]) -> bool
    ensures { IsTrue result ↔ Touches (IsAnyReserved B reserved.now) (writes_of phase.now) }
{
    for write in phase {
        if is_reserved::<B>(reserved, write.lba) {
            return true;
        }
    }
    false
}

/// Whether a write of one of these phases is of such a sector.
pub(crate) fn touches<const B: usize>(reserved: &Reserved, phases: &[Vec<Write<B>>]) -> bool
    ensures { IsTrue result ↔ Touches (IsAnyReserved B reserved.now) (writes_in (phases_in phases.now)) }
{
    for phase in phases {
        if phase_touches(reserved, phase) {
            return true;
        }
    }
    false
}

/// Whether a write of one of these phases is of a sector that a partition of the layout owns. An owner is searched for only
/// of the writes in the reach of the partitions.
pub(crate) fn touches_owned<const B: usize>(
    layout: &Option<Layout>,
    phases: &[Vec<Write<B>>],
) -> bool
    ensures { IsTrue result ↔ Touches (OwnedOf B layout.now) (writes_in (phases_in phases.now)) }
{
    match layout {
        Some(it) => touches(&Reserved::Owned(layout, reach_of::<B>(it)), phases),
        None => false,
    }
}
