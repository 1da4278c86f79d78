//! GUID partition tables (UEFI 2.10, 5.3): headers, entries and the two copies on a disk.
//!
//! docs/format.md has the layout of the bytes, docs/model.md what a copy of a table is.
#![tactic(auto)]

mod array;
mod bytes;
mod copy;
mod entries;
mod entry;
mod error;
mod header;
mod last;
pub mod laws;
mod place;
mod table;
mod view;

pub use array::{EncodedArray, array_crc, encode_array, encode_array_sector};
pub use copy::{read_copy, read_head, read_same, read_table};
pub use entry::{Entry, decode_entry, encode_entry};
pub use error::CopyError;
pub use header::{Header, decode_header, encode_header};
pub use last::{LastArray, Taken};
pub use place::{
    MOST_ENTRIES, array_at, array_sectors, counted_sectors, first_usable, has_room, header_at,
};
pub use table::{Entries, Side, Table};
pub use view::{ENTRY_SIZE, EntryView};
