//! The files and the devices of the machine, as images.

ghost use Rattle.std.specs.Prelude.{◌≡◌};
ghost use Rattle.pt_sector.specs.Sectors.{IsSectorSize};

use crate::past::Past;
use crate::what::what_is;
use pt_answers::{Images, Opening, Reader, What, as_device};
use pt_disks::{
    Access, FileDisk, NoDevice, OpenError, Store, device_sector_size, open_plain, open_readable,
};
use pt_line::{InUse, Medium};
use std::fs::{File, Files};

/// What stands for standard input.
const STANDARD_INPUT: &str = "-";

// Where the file with this name is.
fn place_of(name: &str) -> &str {
    if name == STANDARD_INPUT {
        "/dev/stdin"
    } else {
        name
    }
}

/// Opens images as disks with sectors of `B` bytes: plain files, or block devices where the line says so.
#[derive(Drop)]
pub struct FileImages<'a, const B: usize, R: Files<File = File> + AllocGlobal>
where
    File: Store<B>,
{
    rt: &'a R,
    past: Past<FileDisk<B>>,
    // Who is told what stands at a path that isn't opened, and what stands at the last one.
    reader: Reader,
    what: Option<What>,
}

impl<'a, const B: usize, R: Files<File = File> + AllocGlobal> FileImages<'a, B, R> {
    pub fn new(rt: &'a R, reader: Reader) -> FileImages<'a, B, R> {
        FileImages {
            rt,
            past: Past::new(),
            reader,
            what: None,
        }
    }

    /// What stands at the last path that wasn't opened, where a person is to be told that.
    pub fn what(&self) -> Option<What> {
        self.what
    }

    // That, of a path where this is tried. Nobody but a person costs a call of the system.
    fn what_at(&self, path: &str, medium: Medium, access: Access) -> Option<What> {
        match self.reader {
            Reader::Program => None,
            Reader::Person => Some(what_is(self.rt, path, medium, access)),
        }
    }

    fn opened(&self, path: &str, opening: Opening, access: Access) -> Result<FileDisk<B>, NoDevice>
        requires { IsSectorSize B }
    {
        let Opening { medium, in_use } = opening;
        match medium {
            Medium::File => match FileDisk::<B>::open(self.rt, path, access) {
                Ok(disk) => Ok(disk),
                Err(error) => Err(as_device(error)),
            },
            Medium::Device => {
                let in_use = match in_use {
                    InUse::Refused => pt_disks::InUse::Refused,
                    InUse::Allowed => pt_disks::InUse::Allowed,
                };
                FileDisk::<B>::open_device(self.rt, path, access, in_use)
            }
        }
    }
}

impl<'a, const B: usize, R: Files<File = File> + AllocGlobal> Images<B> for FileImages<'a, B, R> {
    type Disk = FileDisk<B>;

    type File = File;

    ghost past = { λ images. images.past.calls };

    fn device_sector_size(&mut self, path: &str) -> Result<u64, NoDevice> {
        let found = device_sector_size(self.rt, path);
        self.past = self.past.sized(path, &found);
        found
    }

    fn open(
        &mut self,
        path: &str,
        opening: Opening,
        access: Access,
    ) -> Result<FileDisk<B>, NoDevice> {
        let opened = self.opened(path, opening, access);
        self.past = self.past.opened(path, opening, access, &opened);
        if opened.is_err() {
            self.what = self.what_at(path, opening.medium, access);
        }
        opened
    }

    fn close(&mut self, disk: FileDisk<B>) {
        self.past = self.past.closed(&disk);
    }

    fn open_table(&mut self, path: &str) -> Result<File, OpenError> {
        let opened = open_readable(self.rt, place_of(path));
        self.past = self.past.table_opened(path, &opened);
        if opened.is_err() {
            self.what = self.what_at(path, Medium::File, Access::Read);
        }
        opened
    }

    fn open_plan(&mut self, path: &str) -> Result<File, OpenError> {
        let opened = open_plain(self.rt, path, Access::Read);
        self.past = self.past.plan_opened(path, &opened);
        if opened.is_err() {
            self.what = self.what_at(path, Medium::File, Access::Read);
        }
        opened
    }
}
