//! Rows of the tables by what stands in them.

ghost use Rattle.std.specs.Prelude.{◌≡◌, ◌==◌, map, flat_map, find, bytes_eq};
ghost use Rattle.std.specs.Option.{option_map};
ghost use Rattle.pt_types.specs.Tables.{entry_table};
ghost use Rattle.pt_types.specs.Types.{entry_row, record_row, record_named, record_numbered};
ghost use Rattle.pt_types.specs.inner.Sought.{is_sought};

use crate::entries::{EntryType, entry_types};
use crate::records::{RecordType, record_types};

// What a row is looked for by.
#[derive(Clone, Copy)]
pub(crate) enum Sought<'a> {
    Name(&'a str),
    Code(u16),
    // A GUID's text.
    Guid(&'a str),
}

fn is_sought(sought: &Sought<'_>, row: &EntryType) -> bool
    ensures { result ≡ is_sought sought.now (entry_row row.now) }
{
    match sought {
        Sought::Name(text) => row.name == *text,
        Sought::Code(code) => row.code == Some(*code),
        Sought::Guid(text) => row.guid == *text,
    }
}

// The first of some rows that is sought.
fn first_in(rows: &[EntryType], sought: &Sought<'_>) -> Option<EntryType>
    ensures { option_map entry_row result ≡ find (is_sought sought.now) (map entry_row rows.now) }
{
    for row in rows {
        if is_sought(sought, row) {
            return Some(*row);
        }
    }
    None
}

// The first row that is sought of some families of rows.
fn first_of(families: &[&[EntryType]], sought: &Sought<'_>) -> Option<EntryType>
    ensures { option_map entry_row result ≡ find (is_sought sought.now) (flat_map (λ rows. map entry_row rows.now) families.now) }
{
    for rows in families {
        if let Some(row) = first_in(rows, sought) {
            return Some(row);
        }
    }
    None
}

// The first row that is sought.
pub(crate) fn first_entry(sought: &Sought<'_>) -> Option<EntryType>
    ensures { option_map entry_row result ≡ find (is_sought sought.now) entry_table }
{
    first_of(&entry_types(), sought)
}

// The first of some rows with this name.
fn named_in(rows: &[RecordType], name: &str) -> Option<RecordType>
    ensures { option_map record_row result ≡ find (λ r. bytes_eq r.name name.now) (map record_row rows.now) }
{
    for row in rows {
        if row.name == name {
            return Some(*row);
        }
    }
    None
}

// The first of some rows with this number.
fn numbered_in(rows: &[RecordType], kind: u8) -> Option<RecordType>
    ensures { option_map record_row result ≡ find (λ r. r.kind == kind) (map record_row rows.now) }
{
    for row in rows {
        if row.kind == kind {
            return Some(*row);
        }
    }
    None
}

// The first row of this name.
pub(crate) fn record_named(name: &str) -> Option<RecordType>
    ensures { option_map record_row result ≡ record_named name.now }
{
    named_in(record_types(), name)
}

// The first row of this number.
pub(crate) fn record_numbered(kind: u8) -> Option<RecordType>
    ensures { option_map record_row result ≡ record_numbered kind }
{
    numbered_in(record_types(), kind)
}
