//! What Linux tells of block devices, in /sys and /proc.

use crate::numbers::DeviceNumber;
use crate::uses::{Claim, Purpose, mount_of, swap_of, use_among};
use pt_path::parse_number;
use std::alloc::{AllocError, AllocFailed, Global};
use std::fs::{File, Files, Metadata, OpenOptions};
use std::io::{ErrorKind, Read};
use std::os::unix::fs::{FileTypeExt, MetadataExt};

/// Why what the system tells wasn't read.
#[derive(Clone, Copy)]
pub(crate) enum Unread {
    /// A file is missing, can't be read, or doesn't say what it should.
    Missing,
    Memory,
}

impl From<AllocError> for Unread {
    fn from(_error: AllocError) -> Unread {
        Unread::Memory
    }
}

impl<T: Drop> From<AllocFailed<T>> for Unread {
    fn from(_failed: AllocFailed<T>) -> Unread {
        Unread::Memory
    }
}

/// The number of the block device that was found, if it is one.
pub(crate) fn block_number(found: &Metadata) -> Option<DeviceNumber> {
    if found.file_type().is_block_device() {
        Some(DeviceNumber::of(found.rdev()))
    } else {
        None
    }
}

/// How many bytes a device's sectors have. A partition has its disk's.
pub(crate) fn sector_bytes<R: Files<File = File> + AllocGlobal>(
    rt: &R,
    device: DeviceNumber,
) -> Result<u64, Unread> {
    let own = told(rt, device, "queue/logical_block_size")?;
    let text = match own {
        Some(text) => text,
        None => told(rt, device, "../queue/logical_block_size")?.ok_or(Unread::Missing)?,
    };
    parse_number(text.as_str().trim()).ok_or(Unread::Missing)
}

/// By what a device is in use, or a partition of it, or the disk that it is a partition of.
pub(crate) fn use_of<R: Files<File = File> + AllocGlobal>(
    rt: &R,
    device: DeviceNumber,
) -> Result<Option<String>, Unread> {
    let devices = related(rt, device)?;
    let mounts = text_at(rt, "/proc/self/mountinfo")?.ok_or(Unread::Missing)?;
    if let Some(purpose) = use_among(&mount_claims(rt, mounts.as_str())?, &devices) {
        return Ok(Some(format!(in rt.alloc(); "{purpose}")?));
    }
    // A kernel without swap has no list.
    if let Some(swaps) = text_at(rt, "/proc/swaps")? {
        if let Some(purpose) = use_among(&swap_claims(rt, swaps.as_str())?, &devices) {
            return Ok(Some(format!(in rt.alloc(); "{purpose}")?));
        }
    }
    held(rt, device, &devices)
}

fn mount_claims<'a, R: Files<File = File> + AllocGlobal>(
    rt: &R,
    mounts: &'a str,
) -> Result<Vec<Claim<'a>>, Unread> {
    let mut claims = Vec::new(rt.alloc());
    for line in mounts.lines() {
        let Some(mount) = mount_of(line) else {
            return Err(Unread::Missing);
        };
        claims.push(Claim {
            listed: Some(mount.device),
            node: number_at(rt, mount.source),
            purpose: Purpose::Mount(mount),
        })?;
    }
    Ok(claims)
}

fn swap_claims<'a, R: Files<File = File> + AllocGlobal>(
    rt: &R,
    swaps: &'a str,
) -> Result<Vec<Claim<'a>>, Unread> {
    let mut claims = Vec::new(rt.alloc());
    for line in swaps.lines() {
        if let Some(path) = swap_of(line) {
            claims.push(Claim {
                listed: None,
                node: number_at(rt, path),
                purpose: Purpose::Swap(path),
            })?;
        }
    }
    Ok(claims)
}

/// Whether a name ends in a digit, as that of each partition does: its disk's name, and its number. Few others in a disk's folder do, and
/// each that is asked costs a call.
fn is_numbered(name: &str) -> bool {
    match name.as_bytes() {
        [.., last] => last.is_ascii_digit(),
        [] => false,
    }
}

/// The device, and its partitions, or the disk that it is a partition of.
fn related<R: Files<File = File> + AllocGlobal>(
    rt: &R,
    device: DeviceNumber,
) -> Result<Vec<DeviceNumber>, Unread> {
    let mut devices = vec![in rt.alloc(); device]?;
    if told(rt, device, "partition")?.is_some() {
        devices.push(number_told(rt, device, "../dev")?)?;
        return Ok(devices);
    }
    let DeviceNumber { major, minor } = device;
    // The folder's own name is a link.
    let folder = format!(in rt.alloc(); "/sys/dev/block/{major}:{minor}/.")?;
    let names = names_in(rt, folder.as_str())?.ok_or(Unread::Missing)?;
    for name in names.as_str().split('\0').filter(|name| is_numbered(name)) {
        let mark = format!(in rt.alloc(); "{name}/partition")?;
        if told(rt, device, mark.as_str())?.is_some() {
            let number = format!(in rt.alloc(); "{name}/dev")?;
            devices.push(number_told(rt, device, number.as_str())?)?;
        }
    }
    Ok(devices)
}

/// Which device, such as a volume, holds one of these.
fn held<R: Files<File = File> + AllocGlobal>(
    rt: &R,
    asked: DeviceNumber,
    devices: &[DeviceNumber],
) -> Result<Option<String>, Unread> {
    for device in devices {
        if let Some(holder) = holder_of(rt, *device)? {
            if *device == asked {
                return Ok(Some(format!(in rt.alloc(); "held by {holder}")?));
            }
            let name = name_of(rt, *device)?;
            return Ok(Some(format!(in rt.alloc(); "{name} is held by {holder}")?));
        }
    }
    Ok(None)
}

/// The first of the devices that hold this one.
fn holder_of<R: Files<File = File> + AllocGlobal>(
    rt: &R,
    device: DeviceNumber,
) -> Result<Option<String>, Unread> {
    let DeviceNumber { major, minor } = device;
    let folder = format!(in rt.alloc(); "/sys/dev/block/{major}:{minor}/holders")?;
    let Some(names) = names_in(rt, folder.as_str())? else {
        return Ok(None);
    };
    for name in names.as_str().split('\0') {
        if !name.is_empty() && name != "." && name != ".." {
            return Ok(Some(String::from_str(rt.alloc(), name)?));
        }
    }
    Ok(None)
}

/// A device's name in the kernel's messages, as `sda1`.
fn name_of<R: Files<File = File> + AllocGlobal>(
    rt: &R,
    device: DeviceNumber,
) -> Result<String, Unread> {
    let text = told(rt, device, "uevent")?.ok_or(Unread::Missing)?;
    for line in text.as_str().lines() {
        if let Some(name) = line.strip_prefix("DEVNAME=") {
            return Ok(String::from_str(rt.alloc(), name)?);
        }
    }
    Err(Unread::Missing)
}

/// The number of the block device at a path, if there is one.
fn number_at<R: Files>(rt: &R, path: &str) -> Option<DeviceNumber> {
    // What is no path from the root is a name, as `tmpfs`.
    if !path.starts_with('/') {
        return None;
    }
    match rt.metadata(path) {
        Ok(found) => block_number(&found),
        Err(_) => None,
    }
}

fn number_told<R: Files<File = File> + AllocGlobal>(
    rt: &R,
    device: DeviceNumber,
    name: &str,
) -> Result<DeviceNumber, Unread> {
    let text = told(rt, device, name)?.ok_or(Unread::Missing)?;
    DeviceNumber::read(text.as_str().trim()).ok_or(Unread::Missing)
}

/// What a file in a device's folder tells; none where there is no such file.
fn told<R: Files<File = File> + AllocGlobal>(
    rt: &R,
    device: DeviceNumber,
    name: &str,
) -> Result<Option<String>, Unread> {
    let DeviceNumber { major, minor } = device;
    let path = format!(in rt.alloc(); "/sys/dev/block/{major}:{minor}/{name}")?;
    text_at(rt, path.as_str())
}

/// The text of a file; none where there is no such file.
fn text_at<R: Files<File = File> + AllocGlobal>(
    rt: &R,
    path: &str,
) -> Result<Option<String>, Unread> {
    let mut how = OpenOptions::new();
    how.read(true);
    match rt.open_file(&how, path) {
        Ok(file) => Ok(Some(text_of(rt.alloc(), file)?)),
        Err(error) => match error.kind() {
            ErrorKind::NotFound | ErrorKind::NotADirectory => Ok(None),
            _ => Err(Unread::Missing),
        },
    }
}

/// How many bytes of names one call has room for. The system gives whole names alone, and refuses room that is less than the longest takes.
const NAMES: usize = 4096;

/// The names in a folder, each ended by a NUL; none where there is no such folder.
fn names_in<R: Files<File = File> + AllocGlobal>(
    rt: &R,
    path: &str,
) -> Result<Option<String>, Unread> {
    match rt.open_dir(path) {
        Ok(folder) => Ok(Some(names_of(rt.alloc(), folder)?)),
        Err(error) => match error.kind() {
            ErrorKind::NotFound | ErrorKind::NotADirectory => Ok(None),
            _ => Err(Unread::Missing),
        },
    }
}

fn names_of<T: Read + Drop>(alloc: Global, mut folder: T) -> Result<String, Unread> {
    let mut bytes = Vec::new(alloc);
    let mut some = [0; NAMES];
    for _ in 0..u64::MAX {
        match folder.read(&mut some) {
            Ok(0) => break,
            Ok(count) => bytes.extend_from_slice(&some[..count])?,
            Err(error) => match error.kind() {
                ErrorKind::Interrupted => {}
                _ => return Err(Unread::Missing),
            },
        }
    }
    as_text(bytes)
}

fn text_of<T: Read + Drop>(alloc: Global, mut reader: T) -> Result<String, Unread> {
    let mut bytes = Vec::new(alloc);
    match reader.read_to_end(&mut bytes) {
        Ok(_) => as_text(bytes),
        Err(error) => match error.kind() {
            ErrorKind::OutOfMemory => Err(Unread::Memory),
            _ => Err(Unread::Missing),
        },
    }
}

fn as_text(bytes: Vec<u8>) -> Result<String, Unread> {
    match String::from_utf8(bytes) {
        Ok(text) => Ok(text),
        Err(_) => Err(Unread::Missing),
    }
}
