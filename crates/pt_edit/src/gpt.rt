//! The layout of a GPT in its parts, and the words `U`, `e` and `o`, which change the table itself.

ghost use Rattle.std.specs.Prelude.{◌≡◌, ◌≤◌, Err, IfOk, IfErr, IfSome, length};
ghost use Rattle.pt_sector.specs.Sectors.{IsSectorSize};
ghost use Rattle.pt_gpt.specs.Copies.{HasRoom};
ghost use Rattle.pt_edit.specs.Entries.{table_in, used_entry, with_entry, disk_set, extended};
ghost use Rattle.pt_edit.specs.inner.Entries.{whole_of, without_spot};
ghost use Rattle.pt_edit.specs.Edited.{empty_gpt};

use crate::labels::drop_label;
use pt_gpt::{Entries, Entry, MOST_ENTRIES, Table, first_usable};
use pt_guid::Guid;
use pt_members::{Body, Labels, Layout};
use pt_words::Refusal;
use std::alloc::{AllocError, Global};

/// What the layout of a GPT has.
#[derive(Drop)]
pub struct Gpt {
    pub sectors: u64,
    pub table: Table,
    pub labels: Labels,
}

// The table's used entry of a number, from 1 on.
pub(crate) fn used_entry(table: &Table, number: u64) -> Option<Entry>
    ensures value { result ≡ used_entry table.now number }
    ensures first { IfSome result (λ _. 1 ≤ number) }
    ensures last { IfSome result (λ _. number ≤ length table.now.entries) }
{
    if number == 0 || number > table.entries.len() as u64 {
        return None;
    }
    table.entries.get(number as usize - 1)
}

impl Gpt {
    // The parts of a layout, where it is of a GPT.
    pub(crate) fn of(layout: Layout) -> Result<Gpt, Refusal>
        ensures ok { IfOk result (λ gpt. layout ≡ whole_of gpt) }
        ensures err { IfErr result (λ refusal. table_in layout.body ≡ Err refusal) }
    {
        let (sectors, body, labels) = layout.into_parts();
        match body {
            Body::Gpt(table) => Ok(Gpt {
                sectors,
                table,
                labels,
            }),
            Body::Mbr { .. } => Err(Refusal::NotForThisTable),
        }
    }

    // The layout of the parts.
    fn whole(self) -> Layout
        ensures { result ≡ whole_of self }
    {
        Layout {
            sectors: self.sectors,
            body: Body::Gpt(self.table),
            labels: self.labels,
        }
    }

    // The layout with another entry in the place of one.
    pub(crate) fn with_entry(mut self, number: u64, entry: Entry) -> Layout
        requires first { 1 ≤ number }
        requires last { number ≤ length self.table.entries }
        ensures { result ≡ whole_of (record { sectors = self.sectors; table = with_entry self.table number entry; labels = self.labels }) }
    {
        self.table.entries.set(number as usize - 1, Some(entry));
        self.whole()
    }

    // The layout without one entry and the label that it has as a slice.
    pub(crate) fn without_entry(mut self, number: u64) -> Layout
        requires first { 1 ≤ number }
        requires last { number ≤ length self.table.entries }
        ensures { result ≡ without_spot number self }
    {
        self.table.entries.set(number as usize - 1, None);
        let Gpt {
            sectors,
            table,
            labels,
        } = self;
        Layout {
            sectors,
            body: Body::Gpt(table),
            labels: drop_label(labels, number),
        }
    }
}

// The layout with another GUID of the disk.
#[tactic(auto, using(crate::proofs::EntrySteps::with_whole), unfolding(crate::specs::Entries::disk_set))]
pub(crate) fn set_disk(layout: Layout, guid: &Guid) -> Result<Layout, Refusal>
    ensures { result ≡ disk_set guid.now layout }
{
    let mut gpt = Gpt::of(layout)?;
    gpt.table.disk = *guid;
    Ok(gpt.whole())
}

// The layout with its last usable sector where the present end of the disk allows it.
#[tactic(auto, using(crate::proofs::EntrySteps::with_whole), unfolding(crate::specs::Entries::extended))]
pub(crate) fn extend<const B: usize>(layout: Layout) -> Result<Layout, Refusal>
    requires size { IsSectorSize B }
    ensures { result ≡ extended B layout }
{
    let mut gpt = Gpt::of(layout)?;
    gpt.table.last = gpt.sectors.saturating_sub(first_usable::<B>());
    Ok(gpt.whole())
}

// An empty GPT on a disk that has room for one.
pub(crate) fn empty<const B: usize>(
    alloc: Global,
    sectors: u64,
    guid: &Guid,
) -> Result<Layout, AllocError>
    requires size { IsSectorSize B }
    requires room { HasRoom B sectors }
    ensures { IfOk result (λ made. made ≡ empty_gpt B sectors guid.now) }
{
    let entries = Vec::from_slice(alloc, &[None; MOST_ENTRIES])?;
    let first = first_usable::<B>();
    Ok(Layout {
        sectors,
        body: Body::Gpt(Table {
            disk: *guid,
            first,
            last: sectors - first,
            entries: Entries::new(entries),
        }),
        labels: Labels::new(Vec::new(alloc)),
    })
}
