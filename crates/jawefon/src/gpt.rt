//! Headers, entries and tables of a GPT, and its two copies.

pub use pt_gpt::{
    CopyError, EncodedArray, Entries, Entry, EntryView, Header, Side, Table, array_at, array_crc,
    array_sectors, decode_entry, decode_header, encode_array, encode_array_sector, encode_entry,
    encode_header, first_usable, has_room, header_at, read_copy,
};
