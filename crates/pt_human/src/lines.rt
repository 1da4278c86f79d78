//! What the page lists: the partitions of a layout and its blocks of free sectors, in the order of their places.

ghost use Rattle.std.specs.Prelude.{◌≡◌, ◌≤◌, IfOk, OnOk, fold, length};
ghost use Rattle.std.specs.List.{insert};
ghost use Rattle.pt_members.specs.Rows.{rows_of};
ghost use Rattle.pt_human.specs.Lines.{first_of, free_line, last_of, lines_of, partition_line, with_block, with_line, with_row};

use crate::places::{Place, inside_of, is_before, place_in};
use pt_edit::FreeBlock;
use pt_members::{Layout, Row};
use std::alloc::{AllocError, Global};

/// A partition, or a block of free sectors.
#[derive(Clone, Copy)]
pub enum Item {
    Partition(Row),
    Free(FreeBlock),
}

impl Item {
    /// Its first sector.
    pub(crate) fn first(&self) -> u128
        ensures { result ≡ first_of self.now }
    {
        match self {
            Item::Partition(row) => row.member.first,
            Item::Free(block) => u128::from(block.first),
        }
    }

    /// Its last sector.
    pub(crate) fn last(&self) -> u128
        ensures { result ≡ last_of self.now }
    {
        match self {
            Item::Partition(row) => row.member.last,
            Item::Free(block) => u128::from(block.last),
        }
    }
}

/// What a line of the page tells, and where it stands.
#[derive(Clone, Copy)]
pub struct Line {
    pub place: Place,
    pub item: Item,
}

fn partition_line(rows: &[Row], row: &Row) -> Line
    ensures { result ≡ partition_line rows.now row.now }
{
    let inside = inside_of(rows, &row.member.path);
    Line {
        place: place_in(rows, inside, row.member.first),
        item: Item::Partition(*row),
    }
}

fn free_line(rows: &[Row], block: &FreeBlock) -> Line
    ensures { result ≡ free_line rows.now block.now }
{
    Line {
        place: place_in(rows, block.inside, u128::from(block.first)),
        item: Item::Free(*block),
    }
}

// How many of some lines come before another one.
fn count_before(lines: &[Line], line: &Line) -> usize
    ensures within { result ≤ length lines.now }
    ensures there { insert lines.now result line.now ≡ with_line line.now lines.now }
{
    for k in 0..lines.len() {
        if is_before(&line.place, &lines[k].place) {
            return k;
        }
    }
    lines.len()
}

// Puts a line behind all that don't come after it.
fn put_line(lines: &mut Vec<Line>, line: Line) -> Result<(), AllocError>
    ensures { OnOk result (lines.new.items ≡ with_line line lines.old.items) }
{
    let k = count_before(lines.as_slice(), &line);
    lines.insert(k, line)?;
    Ok(())
}

/// The partitions of a layout, in a list.
pub(crate) fn rows_in<const B: usize>(
    alloc: Global,
    layout: &Layout,
) -> Result<Vec<Row>, AllocError>
    ensures { IfOk result (λ list. list.items ≡ rows_of B layout.now) }
{
    let mut list = Vec::new(alloc);
    for row in layout.rows::<B>() {
        list.push(row)?;
    }
    Ok(list)
}

fn put_rows(lines: &mut Vec<Line>, rows: &[Row]) -> Result<(), AllocError>
    ensures { OnOk result (lines.new.items ≡ fold (with_row rows.now) lines.old.items rows.now) }
{
    for row in rows {
        put_line(lines, partition_line(rows, row))?;
    }
    Ok(())
}

fn put_blocks(lines: &mut Vec<Line>, rows: &[Row], blocks: &[FreeBlock]) -> Result<(), AllocError>
    ensures { OnOk result (lines.new.items ≡ fold (with_block rows.now) lines.old.items blocks.now) }
{
    for block in blocks {
        put_line(lines, free_line(rows, block))?;
    }
    Ok(())
}

/// The lines of a page with these partitions and these blocks.
pub(crate) fn lines_of(
    alloc: Global,
    rows: &[Row],
    blocks: &[FreeBlock],
) -> Result<Vec<Line>, AllocError>
    ensures { IfOk result (λ list. list.items ≡ lines_of rows.now blocks.now) }
{
    let mut lines = Vec::new(alloc);
    put_rows(&mut lines, rows)?;
    put_blocks(&mut lines, rows, blocks)?;
    Ok(lines)
}
