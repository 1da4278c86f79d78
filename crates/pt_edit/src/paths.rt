//! The words `t`, `d` and `n`, by what their path names and by the kind of the table.

ghost use Rattle.std.specs.Prelude.{◌≡◌, ◌≢◌, IfOk, IfErr, Ok, Err};
ghost use Rattle.pt_edit.specs.inner.Entries.{layout_of};
ghost use Rattle.pt_edit.specs.Edited.{typed, deleted, made};

use crate::entries::{delete_entry, set_entry_kind};
use crate::gpt::Gpt;
use crate::labels::{delete_part, new_part, set_part_kind};
use crate::new_entry::new_entry;
use crate::records::MbrParts;
use pt_guid::Guid;
use pt_members::{Body, Layout};
use pt_path::Path;
use pt_words::{Asked, Code, Refusal};
use std::alloc::Global;

/// The parts of a layout by its kind.
#[derive(Drop)]
pub enum Parts {
    OfGpt(Gpt),
    OfMbr(MbrParts),
}

// The parts of a layout.
fn parts_of(layout: Layout) -> Parts
    ensures { layout ≡ layout_of result }
{
    let (sectors, body, labels) = layout.into_parts();
    match body {
        Body::Gpt(table) => Parts::OfGpt(Gpt {
            sectors,
            table,
            labels,
        }),
        Body::Mbr { records, chain } => Parts::OfMbr(MbrParts {
            sectors,
            records,
            chain,
            labels,
        }),
    }
}

// The layout with another type of what a path names.
#[tactic(auto, unfolding(crate::specs::Edited::typed))]
pub(crate) fn set_kind<const B: usize>(
    layout: Layout,
    path: &Path,
    code: &Code,
) -> Result<Layout, Refusal>
    ensures { result ≡ typed B path.now.number path.now.letter code.now layout }
{
    if let Some(letter) = path.letter {
        return set_part_kind::<B>(layout, path.number, letter, code);
    }
    match parts_of(layout) {
        Parts::OfGpt(gpt) => set_entry_kind::<B>(gpt, path.number, code),
        Parts::OfMbr(parts) => crate::records::set_kind::<B>(parts, path.number, code),
    }
}

// The layout without what a path names.
#[tactic(auto, unfolding(crate::specs::Edited::deleted))]
pub(crate) fn delete<const B: usize>(layout: Layout, path: &Path) -> Result<Layout, Refusal>
    ensures { result ≡ deleted B path.now.number path.now.letter layout }
{
    if let Some(letter) = path.letter {
        return delete_part::<B>(layout, path.number, letter);
    }
    match parts_of(layout) {
        Parts::OfGpt(gpt) => delete_entry(gpt, path.number),
        Parts::OfMbr(parts) => crate::records::delete(parts, path.number),
    }
}

// The layout with a new partition.
#[tactic(auto, unfolding(crate::specs::Edited::made))]
pub(crate) fn new<const B: usize>(
    alloc: Global,
    layout: Layout,
    letter: Option<u8>,
    asked: &Asked,
    fresh: &[Guid],
) -> Result<Layout, Refusal>
    ensures ok { IfOk result (λ p. made B letter asked.now fresh.now layout ≡ Ok p) }
    ensures err { IfErr result (λ refusal. refusal ≢ Refusal.Memory → made B letter asked.now fresh.now layout ≡ Err refusal) }
{
    match letter {
        Some(letter) => new_part::<B>(alloc, layout, letter, asked),
        None => match parts_of(layout) {
            Parts::OfGpt(gpt) => new_entry::<B>(alloc, gpt, asked, fresh),
            Parts::OfMbr(parts) => crate::records::new::<B>(alloc, parts, asked),
        },
    }
}
