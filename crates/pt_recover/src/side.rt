//! The layout that one side's copy of a GPT gives alone.

ghost use Rattle.std.specs.Prelude.{◌≡◌, IfOk, IfErr, Some};
ghost use Rattle.pt_sector.specs.Device.{Blames};
ghost use Rattle.pt_sector.specs.Overlays.{OnlyReads};
ghost use Rattle.pt_sector.specs.Sectors.{IsSectorSize};
ghost use Rattle.pt_gpt.specs.Copies.{Copy as CopyOf};
ghost use Rattle.pt_recover.specs.FromSides.{FailedInSide, FromSideReads, SideGives, SideGivesNone, side_error_sentence, side_fault_in};
ghost use Rattle.pt_recover.specs.FromSides.{told_copy, told_side_failure};
ghost use Rattle.pt_recover.specs.declared.side.SideError.TheVariants.{Memory};

use crate::labels::traced_labels;
use crate::trace::Trace;
use pt_gpt::{CopyError, Side, Table, has_room, read_copy};
use pt_members::{Body, Layout, label_places};
use pt_sector::{Disk, Failure, Lba};
use std::alloc::{AllocError, Global};
use std::error::Error;
use std::fmt;

/// Why one side's copy of a GPT gives no layout. The first two are reported exactly where they hold.
#[derive(Clone, Copy, Debug, PartialEq, Eq)]
pub enum SideError {
    /// There are fewer sectors than a GPT takes with one usable one: 68 of 512 bytes, or 12 of 4096.
    TooSmall,
    /// The copy doesn't exist: of the rules of [`CopyError`] the first that it breaks, never `Device` or `Memory`.
    Copy(CopyError),
    /// The read of this sector failed.
    Device(Lba),
    /// Memory for the layout was refused.
    Memory,
}

impl fmt::Display for SideError {
    ghost output = { λ error. Some (side_error_sentence error) };

    fn fmt<W: fmt::Write>(&self, f: &mut fmt::Formatter<W>) -> fmt::Result {
        match self {
            SideError::TooSmall => f.write_str("fewer sectors than a GPT takes"),
            SideError::Copy(error) => fmt::Display::fmt(error, f),
            SideError::Device(at) => write!(f, "sector {} can't be read", at.0),
            SideError::Memory => f.write_str("out of memory"),
        }
    }
}

impl Error for SideError {}

impl From<CopyError> for SideError {
    ghost from_gives = { λ error e. e ≡ told_copy error };

    fn from(error: CopyError) -> SideError {
        match error {
            CopyError::Device(at) => SideError::Device(at),
            CopyError::Memory => SideError::Memory,
            error => SideError::Copy(error),
        }
    }
}

impl From<Failure> for SideError {
    ghost from_gives = { λ failure e. e ≡ told_side_failure failure };

    fn from(failure: Failure) -> SideError {
        match failure {
            Failure::Device(at) => SideError::Device(at),
            Failure::Memory => SideError::Memory,
        }
    }
}

impl From<AllocError> for SideError {
    ghost from_gives = { λ _ e. e ≡ Memory };

    fn from(_e: AllocError) -> SideError {
        SideError::Memory
    }
}

// The side's table.
fn table_from<const B: usize, D: Disk<B>>(
    alloc: Global,
    disk: &mut D,
    side: Side,
) -> Result<Table, SideError>
    requires size { IsSectorSize B }
    ensures same { OnlyReads D.Disk disk.old disk.new }
    ensures blames { Blames side_fault_in result (D.faults disk.old) (D.faults disk.new) }
    ensures place { D.tells → IfErr result (FailedInSide (FromSideReads B (D.told disk.old).seen side)) }
    ensures ok { D.tells → IfOk result (λ t. CopyOf B (D.told disk.old).seen side t) }
    ensures err { D.tells → IfErr result (λ e. SideGivesNone B (D.told disk.old).seen side e) }
{
    if !has_room::<B>(disk.sectors()) {
        return Err(SideError::TooSmall);
    }
    let table = read_copy(alloc, disk, side)?;
    Ok(table)
}

/// The layout that one side's copy of a GPT gives alone, the primary or the backup, or why it gives none. Sector 0 and the other
/// copy aren't read: where both copies exist and differ, this is how to look at each of them (docs/commands.md, `no 4 copies differ`).
pub fn recover_from<const B: usize, D: Disk<B>>(
    alloc: Global,
    disk: &mut D,
    side: Side,
) -> Result<Layout, SideError>
    requires size { IsSectorSize B }
    ensures same { OnlyReads D.Disk disk.old disk.new }
    ensures blames { Blames side_fault_in result (D.faults disk.old) (D.faults disk.new) }
    ensures place { D.tells → IfErr result (FailedInSide (FromSideReads B (D.told disk.old).seen side)) }
    ensures ok { D.tells → IfOk result (SideGives B (D.told disk.old).seen side) }
    ensures err { D.tells → IfErr result (SideGivesNone B (D.told disk.old).seen side) }
{
    let sectors = disk.sectors();
    let body = Body::Gpt(table_from(alloc, disk, side)?);
    let places = label_places::<B>(alloc, sectors, &body)?;
    let mut trace = Trace::new(alloc);
    let labels = traced_labels(alloc, disk, &places, &mut trace)?;
    Ok(Layout {
        sectors,
        body,
        labels,
    })
}
