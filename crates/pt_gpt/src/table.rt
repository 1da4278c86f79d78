//! Tables and their entries.

ghost use Rattle.std.specs.Prelude.{◌≡◌, ◌<◌, List, Option, IfOk, length, slice_index_or, slice_set, None, IsTrue, ◌↔◌};
ghost use Rattle.std.specs.Slice.Iter.{iter_rest};
ghost use Rattle.pt_gpt.specs.declared.entry.Entry.{Entry};

use crate::entry::Entry;
use pt_guid::Guid;
use std::alloc::{AllocError, Global};
use std::marker::Model;
use std::slice::Iter;

/// Which of the two copies: the one at the disk's first sectors, or the one at its last.
#[derive(Clone, Copy, Debug, PartialEq, Eq)]
pub enum Side {
    Primary,
    Backup,
}

/// The entries of a table in order, none where one is unused. A clause sees them as a list.
#[derive(Drop)]
pub struct Entries {
    items: Vec<Option<Entry>>,
}

impl Model for Entries {
    ghost Value = { List (Option Entry) };

    ghost view = { λ e. e.items.items };
}

impl Entries {
    /// The entries of a list.
    pub fn new(items: Vec<Option<Entry>>) -> Entries
        ensures { result ≡ items.items }
    {
        Entries { items }
    }

    /// The list of the entries.
    pub fn into_vec(self) -> Vec<Option<Entry>>
        ensures { result.items ≡ self }
    {
        self.items
    }

    /// How many there are.
    pub fn len(&self) -> usize
        ensures { result ≡ length self.now }
    {
        self.items.len()
    }

    /// All of them.
    pub fn as_slice(&self) -> &[Option<Entry>]
        ensures { result.now ≡ self.now }
    {
        self.items.as_slice()
    }

    /// Entry `index`, from 0 on.
    pub fn get(&self, index: usize) -> Option<Entry>
        requires { index < length self.now }
        ensures { result ≡ slice_index_or self.now index None }
    {
        self.items[index]
    }

    /// Puts another in the place of entry `index`.
    pub fn set(&mut self, index: usize, entry: Option<Entry>)
        requires { index < length self.old }
        ensures { self.new ≡ slice_set self.old index entry }
    {
        self.items[index] = entry;
    }

    /// Goes over all of them in order.
    pub fn iter(&self) -> Iter<'_, Option<Entry>>
        ensures { iter_rest result ≡ self.now }
    {
        self.items.iter()
    }

    /// Whether both have the same entries.
    pub fn same(&self, other: &Entries) -> bool
        ensures { IsTrue result ↔ (self.now ≡ other.now) }
    {
        self.items.as_slice() == other.items.as_slice()
    }

    /// An equal list in memory of its own; an error only where there is none.
    pub fn copy(&self, alloc: Global) -> Result<Entries, AllocError>
        ensures { IfOk result (λ entries. entries ≡ self.now) }
    {
        let mut items = Vec::with_capacity(alloc, self.items.len())?;
        items.extend_from_slice(self.items.as_slice())?;
        Ok(Entries { items })
    }
}

/// A GUID partition table, without the places of its copies.
#[derive(Drop)]
pub struct Table {
    /// DiskGUID.
    pub disk: Guid,
    /// FirstUsableLBA: the first sector that an entry may use.
    pub first: u64,
    /// LastUsableLBA: the last one.
    pub last: u64,
    /// The entries, numbered from 1 in what is printed.
    pub entries: Entries,
}

impl Table {
    /// Whether both are the same table.
    pub fn same(&self, other: &Table) -> bool
        ensures { IsTrue result ↔ (self.now ≡ other.now) }
    {
        self.disk == other.disk
            && self.first == other.first
            && self.last == other.last
            && self.entries.same(&other.entries)
    }

    /// An equal table in memory of its own; an error only where there is none.
    pub fn copy(&self, alloc: Global) -> Result<Table, AllocError>
        ensures { IfOk result (λ table. table ≡ self.now) }
    {
        Ok(Table {
            disk: self.disk,
            first: self.first,
            last: self.last,
            entries: self.entries.copy(alloc)?,
        })
    }
}
