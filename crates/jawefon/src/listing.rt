//! The partitions of a layout as a list.

ghost use Rattle.std.specs.Prelude.{◌≡◌, IfOk};
ghost use Rattle.pt_members.specs.Rows.{members_of};

use pt_layout::{Layout, Member};
use std::alloc::{AllocError, Global};

/// The partitions of a layout in the order of their paths, a slice before those of its label.
///
/// Unused entries and records aren't listed, nor is the raw entry c of a label. The extended partition and slices are
/// listed: their [`Kind`](crate::Kind) says that they hold others.
pub fn members<const B: usize>(alloc: Global, layout: &Layout) -> Result<Vec<Member>, AllocError>
    ensures { IfOk result (λ list. list.items ≡ members_of B layout.now) }
{
    layout.members::<B>().collect(alloc)
}
