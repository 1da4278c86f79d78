//! Layouts: what a disk may denote.

ghost use Rattle.std.specs.Prelude.{◌≡◌, ◌↔◌, IfOk, IsTrue, List};
ghost use Rattle.std.specs.List.Sorted.{IsNonDecreasingBy};
ghost use Rattle.pt_mbr.specs.declared.ebr.Ebr.{Ebr};
ghost use Rattle.pt_members.specs.declared.layout.Labelled.{Labelled};

use pt_bsd::Label;
use pt_gpt::Table;
use pt_mbr::{Ebr, Record};
use std::alloc::{AllocError, Global};
use std::marker::Model;

/// The chain of an extended partition: its extended boot records in order, empty ones among them.
#[derive(Drop)]
pub struct Ebrs {
    items: Vec<Ebr>,
}

impl Model for Ebrs {
    ghost Value = { List Ebr };

    ghost view = { λ e. e.items.items };
}

impl Ebrs {
    /// The chain of these records.
    pub fn new(items: Vec<Ebr>) -> Ebrs
        ensures { result ≡ items.items }
    {
        Ebrs { items }
    }

    /// Its records.
    pub fn into_vec(self) -> Vec<Ebr>
        ensures { result.items ≡ self }
    {
        self.items
    }

    /// Its records, in place.
    pub fn as_slice(&self) -> &[Ebr]
        ensures { result.now ≡ self.now }
    {
        &self.items
    }

    /// An equal chain.
    pub fn copy(&self, alloc: Global) -> Result<Ebrs, AllocError>
        ensures { IfOk result (λ e. e ≡ self.now) }
    {
        let mut items = Vec::new(alloc);
        items.extend_from_slice(&self.items)?;
        Ok(Ebrs { items })
    }

    /// Whether the two are equal.
    pub fn same(&self, other: &Ebrs) -> bool
        ensures { IsTrue result ↔ (self.now ≡ other.now) }
    {
        self.items.as_slice() == other.items.as_slice()
    }
}

/// The label of a slice.
#[derive(Clone, Copy, Debug, PartialEq, Eq)]
pub struct Labelled {
    /// The slice's number.
    pub number: u64,
    pub label: Label,
}

fn numbers_ascend(labels: &[Labelled]) -> bool
    ensures { IsTrue result → IsNonDecreasingBy (λ l. l.number) labels.now }
{
    for k in 1..labels.len() {
        if labels[k].number < labels[k - 1].number {
            return false;
        }
    }
    true
}

/// The labels of a layout, by ascending number of their slices.
#[derive(Drop)]
pub struct Labels {
    items: Vec<Labelled>,
    // Whether the numbers ascend, as they do in a layout that was read. A caller's may come in any order.
    ascend: bool,
}

impl Model for Labels {
    ghost Value = { List Labelled };

    ghost view = { λ l. l.items.items };

    ghost invariant = { λ l. IsTrue l.ascend → IsNonDecreasingBy (λ x. x.number) l.items.items };
}

impl Labels {
    /// These labels.
    pub fn new(items: Vec<Labelled>) -> Labels
        ensures { result ≡ items.items }
    {
        let ascend = numbers_ascend(&items);
        Labels { items, ascend }
    }

    /// The labels with their slices' numbers.
    pub fn into_vec(self) -> Vec<Labelled>
        ensures { result.items ≡ self }
    {
        self.items
    }

    /// The labels with their slices' numbers, in place.
    pub fn as_slice(&self) -> &[Labelled]
        ensures { result.now ≡ self.now }
    {
        &self.items
    }

    // Whether the slices' numbers are known to ascend.
    pub(crate) fn ascend(&self) -> bool
        ensures { IsTrue result → IsNonDecreasingBy (λ l. l.number) self.now }
    {
        self.ascend
    }

    /// Equal labels.
    pub fn copy(&self, alloc: Global) -> Result<Labels, AllocError>
        ensures { IfOk result (λ l. l ≡ self.now) }
    {
        let mut items = Vec::new(alloc);
        items.extend_from_slice(&self.items)?;
        Ok(Labels {
            items,
            ascend: self.ascend,
        })
    }

    /// Whether the two are equal.
    pub fn same(&self, other: &Labels) -> bool
        ensures { IsTrue result ↔ (self.now ≡ other.now) }
    {
        self.items.as_slice() == other.items.as_slice()
    }
}

/// The kind of a table, with what stands in it.
#[derive(Drop)]
pub enum Body {
    /// The four records of sector 0, an unused one being none, and the chain of the extended one.
    Mbr {
        records: [Option<Record>; 4],
        chain: Ebrs,
    },
    /// The table of the primary copy, or of the backup where there is no primary.
    Gpt(Table),
}

impl Body {
    /// An equal one.
    pub fn copy(&self, alloc: Global) -> Result<Body, AllocError>
        ensures { IfOk result (λ b. b ≡ self.now) }
    {
        match self {
            Body::Mbr { records, chain } => {
                let chain = chain.copy(alloc)?;
                Ok(Body::Mbr {
                    records: *records,
                    chain,
                })
            }
            Body::Gpt(table) => {
                let table = table.copy(alloc)?;
                Ok(Body::Gpt(table))
            }
        }
    }

    /// Whether the two are equal.
    pub fn same(&self, other: &Body) -> bool
        ensures { IsTrue result ↔ (self.now ≡ other.now) }
    {
        match (self, other) {
            (
                Body::Mbr { records, chain },
                Body::Mbr {
                    records: others,
                    chain: with,
                },
            ) => {
                if !same_records(records, others) {
                    return false;
                }
                chain.same(with)
            }
            (Body::Gpt(table), Body::Gpt(with)) => table.same(with),
            _ => false,
        }
    }
}

fn same_records(records: &[Option<Record>; 4], others: &[Option<Record>; 4]) -> bool
    ensures { IsTrue result ↔ (records.now ≡ others.now) }
{
    records == others
}

/// What a disk denotes.
pub struct Layout {
    /// The number of the disk's sectors.
    pub sectors: u64,
    pub body: Body,
    pub labels: Labels,
}

// By hand: a derived drop stands in each function at each of its exits, and is proved there.
impl Drop for Layout {
    fn drop(self) {
        let Layout {
            sectors: _,
            body: _,
            labels: _,
        } = self;
    }
}

impl Layout {
    /// Its sectors, its body and its labels. A type with a `Drop` of its own isn't taken apart by a pattern.
    pub fn into_parts(self) -> (u64, Body, Labels)
        ensures { self ≡ record { sectors = result.0; body = result.1; labels = result.2 } }
    {
        let Layout {
            sectors,
            body,
            labels,
        } = self;
        (sectors, body, labels)
    }

    /// An equal layout.
    pub fn copy(&self, alloc: Global) -> Result<Layout, AllocError>
        ensures { IfOk result (λ o. o ≡ self.now) }
    {
        let body = self.body.copy(alloc)?;
        let labels = self.labels.copy(alloc)?;
        Ok(Layout {
            sectors: self.sectors,
            body,
            labels,
        })
    }

    /// Whether the two are equal. It takes no memory.
    pub fn same(&self, other: &Layout) -> bool
        ensures { IsTrue result ↔ (self.now ≡ other.now) }
    {
        if self.sectors != other.sectors {
            return false;
        }
        if !self.body.same(&other.body) {
            return false;
        }
        self.labels.same(&other.labels)
    }
}

/// A partition that a label may subdivide: of type A5 in an MBR, of type code A500 in a GPT.
#[derive(Clone, Copy, Debug, PartialEq, Eq)]
pub struct Slice {
    /// Its number as a partition.
    pub number: u64,
    /// Its first sector.
    pub first: u64,
    /// Its sectors; 0 where its extent does not exist (the first past the last, or the last 2^63 or more).
    pub len: u64,
}
