//! The first member with a fault.

ghost use Rattle.std.specs.Prelude.{◌≡◌, ◌<◌, length, slice_index_or};
ghost use Rattle.pt_sector.specs.Sectors.{IsSectorSize};
ghost use Rattle.pt_members.specs.Tables.{AreAlone};
ghost use Rattle.pt_layout.specs.inner.Sound.{LeastIs, HasFault, FaultIn, FaultOfGroup, FaultAmong};

use crate::sound::buried::buried_in;
use crate::sound::groups::Siblings;
use crate::sound::spot::{Spot, first_of};
use pt_members::{Alone, Layout, Member, exists};

/// What may be wrong with a member.
#[derive(Clone, Copy)]
pub enum Fault {
    /// It doesn't exist, or isn't in what holds it.
    Outside,
    /// It exists, and a table lies in it.
    Buried,
}

fn fault_of<const B: usize>(
    layout: &Layout,
    alone: &Alone,
    fault: Fault,
    group: &Siblings,
    m: &Member,
) -> Option<Spot>
    requires size { IsSectorSize B }
    requires alone { AreAlone B layout.now alone.now }
    ensures { LeastIs (HasFault B layout.now fault group.now m.now) result }
{
    match fault {
        Fault::Outside => {
            if group.has_inside(m) {
                None
            } else {
                Some(Spot {
                    path: m.path,
                    lba: 0,
                })
            }
        }
        Fault::Buried => {
            if !exists(m) {
                return None;
            }
            match buried_in::<B>(layout, alone, m) {
                Some(lba) => Some(Spot { path: m.path, lba }),
                None => None,
            }
        }
    }
}

fn fault_in<const B: usize>(
    layout: &Layout,
    alone: &Alone,
    fault: Fault,
    group: &Siblings,
) -> Option<Spot>
    requires size { IsSectorSize B }
    requires alone { AreAlone B layout.now alone.now }
    ensures { LeastIs (FaultIn B layout.now fault group.now) result }
{
    let members = group.as_slice();
    let mut first = None;
    for i in 0..members.len() {
        first = first_of(
            first,
            fault_of::<B>(layout, alone, fault, group, &members[i]),
        );
    }
    first
}

// The first member with a fault, in path order, and for a table the lowest sector.
pub(crate) fn first_fault<const B: usize>(
    layout: &Layout,
    alone: &Alone,
    fault: Fault,
    groups: &[Siblings],
) -> Option<Spot>
    requires size { IsSectorSize B }
    requires alone { AreAlone B layout.now alone.now }
    ensures { LeastIs (FaultAmong B layout.now fault groups.now) result }
{
    let mut first = None;
    for j in 0..groups.len() {
        first = first_of(first, fault_in::<B>(layout, alone, fault, &groups[j]));
    }
    first
}
