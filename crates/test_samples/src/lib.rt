//! Small disks for tests: tables of known bytes, and what a disk holds. Nothing of the product names it.
#![tactic(auto)]

mod disks;

pub use disks::{
    DISK, Image, LINUX, batches, change, crash_disk, entry, gpt_disk, guids, holds, image_of, made,
    new_record, put, put_copy, put_mbr, record, sector, table_disk, words,
};
