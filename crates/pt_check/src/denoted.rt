//! What a disk denotes.

ghost use Rattle.std.specs.Prelude.{◌≡◌, ◌↔◌, IfOk, IfErr, IsTrue};
ghost use Rattle.pt_sector.specs.Device.{Blames};
ghost use Rattle.pt_sector.specs.Overlays.{OnlyReads};
ghost use Rattle.pt_sector.specs.Sectors.{IsSectorSize};
ghost use Rattle.pt_recover.specs.Denotes.{Reads};
ghost use Rattle.pt_check.specs.Answers.{fault_in, FailedInCheck};
ghost use Rattle.pt_check.specs.inner.Answers.{IsKnown};

use crate::error::CheckError;
use pt_gpt::LastArray;
use pt_recover::{Layout, Trace, read_layout};
use pt_sector::Disk;
use std::alloc::Global;

/// What the disk denotes, a layout or nothing, with the sectors that decide it. An array isn't summed that has the bytes of the last
/// one.
pub(crate) fn read_denoted<const B: usize, D: Disk<B>>(
    alloc: Global,
    disk: &mut D,
    last: &mut LastArray,
) -> Result<(Option<Layout>, Trace), CheckError>
    requires size { IsSectorSize B }
    ensures same { OnlyReads D.Disk disk.old disk.new }
    ensures blames { Blames fault_in result (D.faults disk.old) (D.faults disk.new) }
    ensures place { D.tells → IfErr result (FailedInCheck (Reads B (D.told disk.old).seen)) }
    ensures known { D.tells → IfOk result (λ r. IsKnown B (D.told disk.old).seen r.0 r.1) }
{
    let (found, trace) = read_layout(alloc, disk, &None, last)?;
    Ok((found.ok(), trace))
}

/// Whether two disks denote the same.
pub(crate) fn same_layout(a: &Option<Layout>, b: &Option<Layout>) -> bool
    ensures { IsTrue result ↔ (a.now ≡ b.now) }
{
    match (a, b) {
        (None, None) => true,
        (Some(a), Some(b)) => a.same(b),
        _ => false,
    }
}
