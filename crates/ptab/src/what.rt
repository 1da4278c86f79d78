//! What stands at a path that can't be opened.

use pt_answers::What;
use pt_disks::Access;
use pt_line::Medium;
use std::fs::{File, FileType, Files, OpenOptions};
use std::io::ErrorKind;
use std::os::unix::fs::FileTypeExt;

// What an error says of it.
fn what_by(kind: ErrorKind) -> What {
    match kind {
        ErrorKind::NotFound | ErrorKind::NotADirectory => What::Missing,
        ErrorKind::PermissionDenied | ErrorKind::ReadOnlyFilesystem => What::NotAllowed,
        _ => What::Unknown,
    }
}

// Whether something of this type may be opened as that.
fn is_wanted(found: FileType, medium: Medium) -> bool {
    match medium {
        Medium::File => found.is_file(),
        Medium::Device => found.is_block_device(),
    }
}

// Why that can't be opened: it is tried once more.
fn why_unopened<R: Files<File = File>>(rt: &R, path: &str, access: Access) -> What {
    let mut how = OpenOptions::new();
    how.read(true).write(access != Access::Read);
    match rt.open_file(&how, path) {
        Ok(_) => What::Unknown,
        Err(error) => what_by(error.kind()),
    }
}

/// What stands at a path that wasn't opened.
pub fn what_is<R: Files<File = File>>(rt: &R, path: &str, medium: Medium, access: Access) -> What {
    let found = match rt.metadata(path) {
        Ok(found) => found.file_type(),
        Err(error) => return what_by(error.kind()),
    };
    if found.is_dir() {
        What::Folder
    } else if is_wanted(found, medium) {
        why_unopened(rt, path, access)
    } else if found.is_block_device() {
        What::BlockDevice
    } else {
        What::Neither
    }
}
