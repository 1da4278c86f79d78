//! A disk's table as text, and its free blocks.

ghost use Rattle.std.specs.Prelude.{◌≡◌, IfOk, map};
ghost use Rattle.pt_sector.specs.Sectors.{IsSectorSize};
ghost use Rattle.pt_replay.specs.Wanted.{disk_of};
ghost use Rattle.pt_replay.specs.Tables.{TextFor, FreeFor, AreFreeRows, free_row, inside_number};

use crate::answers::{Answer, Status};
use crate::buffers::put_list;
use crate::recovered::recovered;
use crate::rows::FreeRow;
use crate::view::View;
use pt_edit::{FreeBlock, all_free_blocks};
use pt_layout::Layout;
use pt_sector::Moments;
use pt_tables::table_text;
use std::alloc::{AllocError, Global};

/// The table that a view's disk denotes as text, in the caller's buffer, whatever stands elsewhere.
#[tactic(auto, using(crate::proofs::TableRows::no_text))]
pub fn table_written<const B: usize>(
    alloc: Global,
    view: &View<'_>,
    device: &[u8],
    text: &mut [u8],
    elsewhere: Moments<[u8; B]>,
) -> Answer
    requires size { IsSectorSize B }
    ensures says { TextFor B view.now (disk_of B view.now elsewhere.entry.items) device.now text.old text.new
        result.status result.reply }
{
    let device = match std::str::from_utf8(device) {
        Ok(device) => device,
        Err(_) => return Answer::bad_argument(9),
    };
    let layout = match recovered::<B>(alloc, view, elsewhere) {
        Ok(layout) => layout,
        Err(answer) => return answer,
    };
    match table_text::<B>(alloc, device, &layout) {
        Ok(table) => put_list(table.as_bytes(), text),
        Err(_) => Answer::of(Status::Memory),
    }
}

fn number_of(inside: Option<u64>) -> u64
    ensures { result ≡ inside_number inside }
{
    match inside {
        Some(number) => number,
        None => 0,
    }
}

// A row for each block.
fn rows_of(alloc: Global, blocks: &[FreeBlock]) -> Result<Vec<FreeRow>, AllocError>
    ensures { IfOk result (λ rows. rows.items ≡ map free_row blocks.now) }
{
    let mut rows = Vec::new(alloc);
    for block in blocks {
        rows.push(FreeRow {
            first: block.first,
            last: block.last,
            inside: number_of(block.inside),
        })?;
    }
    Ok(rows)
}

// The rows of a layout's free blocks.
fn free_rows<const B: usize>(alloc: Global, layout: &Layout) -> Result<Vec<FreeRow>, AllocError>
    ensures { IfOk result (λ rows. AreFreeRows B layout.now rows.items) }
{
    let blocks = all_free_blocks::<B>(alloc, layout)?;
    rows_of(alloc, blocks.as_slice())
}

/// The free blocks of what a view's disk denotes, in the caller's buffer, whatever stands elsewhere.
#[tactic(auto, using(crate::proofs::TableRows::none_free))]
pub fn free_listed<const B: usize>(
    alloc: Global,
    view: &View<'_>,
    rows: &mut [FreeRow],
    elsewhere: Moments<[u8; B]>,
) -> Answer
    requires size { IsSectorSize B }
    ensures says { FreeFor B view.now (disk_of B view.now elsewhere.entry.items) rows.old rows.new result.status result.reply }
{
    let layout = match recovered::<B>(alloc, view, elsewhere) {
        Ok(layout) => layout,
        Err(answer) => return answer,
    };
    match free_rows::<B>(alloc, &layout) {
        Ok(list) => put_list(list.as_slice(), rows),
        Err(_) => Answer::of(Status::Memory),
    }
}
