//! What a text says of a table.

ghost use Rattle.std.specs.Prelude.{◌≡◌, ℕ, List};
ghost use Rattle.pt_drafts.specs.declared.draft.PartDraft.{PartDraft};

use pt_bsd::Label;
use pt_guid::Guid;
use std::marker::Model;

/// The kind of a table.
#[derive(Clone, Copy, Debug, PartialEq, Eq)]
pub enum TableKind {
    /// `gpt`.
    Gpt,
    /// `dos`.
    Mbr,
}

/// What `id` says of the disk.
#[derive(Clone, Copy, Debug, PartialEq, Eq)]
pub enum DiskId {
    /// The disk GUID of a GPT.
    Guid(Guid),
    /// The signature of an MBR, which is no part of a layout: no value of it is kept.
    Signature,
}

/// How far a partition goes.
#[derive(Clone, Copy, Debug, PartialEq, Eq)]
pub enum Extent {
    /// It has so many sectors.
    Sectors(u64),
    /// It has so many bytes.
    Bytes(u64),
    /// This is its last sector.
    Last(u64),
}

/// What a text names as a type, on a GPT and on an MBR: on one of the two at least.
#[derive(Clone, Copy, Debug, PartialEq, Eq)]
pub struct NamedType {
    pub gpt: Option<Guid>,
    pub mbr: Option<u8>,
}

/// What a text says of a partition; `None` is what it leaves out.
#[derive(Clone, Copy, Debug, PartialEq, Eq)]
pub struct PartDraft {
    /// Its number: `number`, or else the digits at the end of `node`.
    pub number: Option<u64>,
    pub start: Option<u64>,
    pub extent: Option<Extent>,
    /// What `type` names.
    pub kind: Option<NamedType>,
    /// The unique GUID.
    pub unique: Option<Guid>,
    /// The units of its name, with zeros after them.
    pub name: Option<[u16; 36]>,
    pub attributes: Option<u64>,
    /// The boot indicator.
    pub boot: Option<u8>,
    pub start_chs: Option<[u8; 3]>,
    pub end_chs: Option<[u8; 3]>,
    /// The sector of its extended boot record.
    pub at: Option<u64>,
    /// How far it starts behind that sector.
    pub offset: Option<u64>,
    /// Its label; `Some(None)` where the text says that it has none.
    pub bsd: Option<Option<Label>>,
}

/// The sectors of the extended boot records, in the order of their links.
#[derive(Drop)]
pub struct Chain {
    items: Vec<u64>,
}

impl Model for Chain {
    ghost Value = { List ℕ };

    ghost view = { λ c. c.items.items };
}

impl Chain {
    /// These sectors.
    pub fn new(items: Vec<u64>) -> Chain
        ensures { result ≡ items.items }
    {
        Chain { items }
    }

    /// Its sectors.
    pub fn into_vec(self) -> Vec<u64>
        ensures { result.items ≡ self }
    {
        self.items
    }

    /// Its sectors, in place.
    pub fn as_slice(&self) -> &[u64]
        ensures { result.now ≡ self.now }
    {
        &self.items
    }
}

/// The partitions that a text has, in its order.
#[derive(Drop)]
pub struct Parts {
    items: Vec<PartDraft>,
}

impl Model for Parts {
    ghost Value = { List PartDraft };

    ghost view = { λ p. p.items.items };
}

impl Parts {
    /// These partitions.
    pub fn new(items: Vec<PartDraft>) -> Parts
        ensures { result ≡ items.items }
    {
        Parts { items }
    }

    /// Its partitions.
    pub fn into_vec(self) -> Vec<PartDraft>
        ensures { result.items ≡ self }
    {
        self.items
    }

    /// Its partitions, in place.
    pub fn as_slice(&self) -> &[PartDraft]
        ensures { result.now ≡ self.now }
    {
        &self.items
    }
}

/// What a text says of a table; `None` is what it leaves out.
#[derive(Drop)]
pub struct Draft {
    pub label: Option<TableKind>,
    pub disk: Option<DiskId>,
    /// The first usable sector.
    pub first: Option<u64>,
    /// The last usable sector.
    pub last: Option<u64>,
    /// For how many entries the array has room: `entries`, or `table-length`.
    pub entries: Option<u64>,
    /// How many sectors the disk has.
    pub sectors: Option<u64>,
    /// How many bytes a sector has.
    pub sector_size: Option<u64>,
    pub chain: Option<Chain>,
    pub parts: Parts,
}
