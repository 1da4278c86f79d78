//! A disk in a block device, for callers who ask for one.

ghost use Rattle.std.specs.Prelude.{◌≡◌, ◌≢◌, ◌⊎◌, ◌<◌, [], IfOk, IfErr, Some};
ghost use Rattle.pt_disks.specs.declared.device.InUse.TheVariants.{Refused};
ghost use Rattle.pt_disks.specs.declared.device.NoDevice.TheVariants.{Locked, Memory, NotBlock, Unopened};
ghost use Rattle.pt_disks.specs.declared.open.Access.TheVariants.{Read, Write};
ghost use Rattle.pt_disks.specs.Devices.{TellsUse};
ghost use Rattle.pt_disks.specs.Sentences.{no_device_sentence};

use crate::file_disk::{FileDisk, StoreDisk};
use crate::numbers::DeviceNumber;
use crate::open::{Access, OpenError, locked};
use crate::system::{Unread, block_number, sector_bytes, use_of};
use std::error::Error;
use std::fmt;
use std::fs::{File, Files, OpenOptions};

/// Whether a device that is in use is opened for writing.
#[derive(Clone, Copy, Debug, PartialEq, Eq)]
pub enum InUse {
    Refused,
    Allowed,
}

/// Why a block device wasn't opened. Behind each stands what `ptab` prints on standard error, and its status.
#[derive(Debug, Drop)]
pub enum NoDevice {
    /// It can't be opened so, or what it is and who uses it can't be read in /sys and /proc: `device`, 5.
    Unopened,
    /// There is something, but no block device: `device: not a block device`, 5.
    NotBlock,
    /// Its sectors have this many bytes, and others were asked for: `bad sector size: the device has N`, 2.
    SectorSize(u64),
    /// Its lock is held elsewhere: `refused: locked`, 3.
    Locked,
    /// It is in use, as the text says, for instance `/dev/sda1 is mounted on /boot`: `refused: in use: TEXT`, 3.
    InUse(String),
    /// `memory`, 6.
    Memory,
}

impl fmt::Display for NoDevice {
    ghost output = { λ why. Some (no_device_sentence why) };

    fn fmt<W: fmt::Write>(&self, f: &mut fmt::Formatter<W>) -> fmt::Result {
        match self {
            NoDevice::Unopened => f.write_str("the device can't be opened"),
            NoDevice::NotBlock => f.write_str("it isn't a block device"),
            NoDevice::SectorSize(bytes) => write!(f, "the device's sectors have {bytes} bytes"),
            NoDevice::Locked => f.write_str("the device is locked by another program"),
            NoDevice::InUse(by) => write!(f, "the device is in use: {by}"),
            NoDevice::Memory => f.write_str("there is no memory"),
        }
    }
}

impl Error for NoDevice {}

impl From<Unread> for NoDevice {
    ghost from_gives = { λ _ e. (e ≡ Unopened) ⊎ (e ≡ Memory) };

    fn from(unread: Unread) -> NoDevice {
        match unread {
            Unread::Missing => NoDevice::Unopened,
            Unread::Memory => NoDevice::Memory,
        }
    }
}

/// How many bytes the sectors of a block device have, which may be other than 512 and 4096. A partition has its disk's.
///
/// Errors: `Unopened` where nothing is at the path or /sys doesn't say it, `NotBlock`, `Memory`.
pub fn device_sector_size<R: Files<File = File> + AllocGlobal>(
    rt: &R,
    path: &str,
) -> Result<u64, NoDevice> {
    Ok(sector_bytes(rt, device_at(rt, path)?)?)
}

impl<const B: usize> StoreDisk<B, File> {
    /// Opens a block device, a whole disk or a partition, as a disk with as many sectors as it has now.
    ///
    /// It is locked where the access is `Access::Write`, as long as the disk lasts: by the lock that udev respects. Where it is
    /// opened for writing with `InUse::Refused`, it may not be mounted or swap space, nor held by another device, such as a
    /// volume; nor may a partition of it, nor the disk that it is a partition of. The kernel knows of more use than this sees: a
    /// mount in another namespace, or a program that has it open.
    pub fn open_device<R: Files<File = File> + AllocGlobal>(
        rt: &R,
        path: &str,
        access: Access,
        in_use: InUse,
    ) -> Result<FileDisk<B>, NoDevice>
        requires size { 0 < B }
        ensures unfailed { IfOk result (λ disk. disk.failed.items ≡ []) }
        ensures locked { IfErr result (λ e. e ≡ Locked → access ≡ Write) }
        ensures in_use { IfErr result (λ e. TellsUse e → (access ≢ Read) × (in_use ≡ Refused)) }
    {
        let (file, device) = open_block(rt, path, access)?;
        let bytes = sector_bytes(rt, device)?;
        if bytes != B as u64 {
            return Err(NoDevice::SectorSize(bytes));
        }
        let file = locked_for(file, access)?;
        if access != Access::Read && in_use == InUse::Refused {
            if let Some(by) = use_of(rt, device)? {
                return Err(NoDevice::InUse(by));
            }
        }
        StoreDisk::new(file).ok_or(NoDevice::Unopened)
    }
}

/// The number of the block device at a path.
fn device_at<R: Files<File = File>>(rt: &R, path: &str) -> Result<DeviceNumber, NoDevice>
    ensures { IfErr result (λ e. (e ≡ Unopened) ⊎ (e ≡ NotBlock)) }
{
    match rt.metadata(path) {
        Ok(found) => block_number(&found).ok_or(NoDevice::NotBlock),
        Err(_) => Err(NoDevice::Unopened),
    }
}

/// Opens what is a block device, and gives the number of what was opened.
fn open_block<R: Files<File = File>>(
    rt: &R,
    path: &str,
    access: Access,
) -> Result<(File, DeviceNumber), NoDevice>
    ensures { IfErr result (λ e. (e ≡ Unopened) ⊎ (e ≡ NotBlock)) }
{
    // What isn't one, as a pipe, isn't even opened.
    device_at(rt, path)?;
    let mut how = OpenOptions::new();
    how.read(true).write(access != Access::Read);
    let Ok(file) = rt.open_file(&how, path) else {
        return Err(NoDevice::Unopened);
    };
    let Ok(opened) = file.metadata() else {
        return Err(NoDevice::Unopened);
    };
    match block_number(&opened) {
        Some(device) => Ok((file, device)),
        None => Err(NoDevice::NotBlock),
    }
}

/// The file, under its lock where the access asks for it.
fn locked_for(file: File, access: Access) -> Result<File, NoDevice>
    ensures { IfErr result (λ e. (e ≡ Unopened) ⊎ ((e ≡ Locked) × (access ≡ Write))) }
{
    if access != Access::Write {
        return Ok(file);
    }
    match locked(file) {
        Ok(file) => Ok(file),
        Err(OpenError::NoFile) => Err(NoDevice::Unopened),
        Err(OpenError::Locked) => Err(NoDevice::Locked),
    }
}
