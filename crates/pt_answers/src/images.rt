//! What opens the images and the plans that a line names.

ghost use Rattle.std.specs.Prelude.{◌≡◌, ◌∷◌, List};
ghost use Rattle.pt_sector.specs.Sectors.{IsSectorSize};
ghost use Rattle.pt_answers.specs.Images.{Call, Closed, Opened, PlanOpened, Sized, TableOpened};

use pt_disks::{Access, NoDevice, OpenError};
use pt_line::{InUse, Medium};
use pt_sector::Disk;
use std::io::Read;

/// How an image is opened.
#[derive(Clone, Copy)]
pub struct Opening {
    pub medium: Medium,
    pub in_use: InUse,
}

/// Opens images as disks with sectors of `B` bytes, and the files of plans and of tables.
///
/// A clause knows its calls, the newest first, so that a run says which images it opened, for what, and how it left them.
pub trait Images<const B: usize> {
    /// What an image is opened as.
    type Disk: Disk<B> + Drop;

    /// What a file is opened as.
    type File: Read + Drop;

    /// Its calls so far, the newest first.
    ghost past: { Self → List (Call Self.Disk Self.File) };

    /// How many bytes the sectors of the device at a path have, which may be other than 512 and 4096.
    fn device_sector_size(&mut self, path: &str) -> Result<u64, NoDevice>
        ensures { past self.new ≡ Sized path.now result ∷ past self.old };

    /// Opens an image: a plain file, or a device where `opening` says so.
    fn open(&mut self, path: &str, opening: Opening, access: Access) -> Result<Self::Disk, NoDevice>
        requires { IsSectorSize B }
        ensures { past self.new ≡ Opened path.now opening access result ∷ past self.old };

    /// Closes a disk. What was written to it stands.
    fn close(&mut self, disk: Self::Disk)
        ensures { past self.new ≡ Closed disk ∷ past self.old };

    /// Opens the file of a plan, a plain one, for reading.
    fn open_plan(&mut self, path: &str) -> Result<Self::File, OpenError>
        ensures { past self.new ≡ PlanOpened path.now result ∷ past self.old };

    /// Opens the file of a table's text, or a pipe, for reading; standard input, where the path is `-`.
    fn open_table(&mut self, path: &str) -> Result<Self::File, OpenError>
        ensures { past self.new ≡ TableOpened path.now result ∷ past self.old };
}
