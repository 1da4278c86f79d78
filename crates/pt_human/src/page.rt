//! The page of a table.

ghost use Rattle.std.specs.Prelude.{◌≡◌, ◌≤◌, ◌++◌, IfOk, OnOk, flat_map, string_bytes};
ghost use Rattle.pt_sector.specs.Sectors.{IsSectorSize};
ghost use Rattle.pt_human.specs.Page.{IsPage, disk_text, head_text, heading_more, headings, indented, kind_name, line_text, page_with};
ghost use Rattle.pt_human.specs.Page.{columns_text, sizes_of, sizes_text, top_text};

use crate::bar::push_bar;
use crate::cells::{Widths, push_row, push_spaces};
use crate::lines::{Line, lines_of, rows_in};
use crate::names::{kind_text, more_text, path_text};
use crate::places::depth_of;
use crate::sizes::{count_text, size_text};
use crate::widths::widths_of;
use pt_edit::all_free_blocks;
use pt_members::{Body, Layout};
use std::alloc::{AllocError, Global};
use std::fmt::Write;

fn kind_name(body: &Body) -> &'static str
    ensures { result.now ≡ kind_name body.now }
{
    match body {
        Body::Mbr { .. } => "MBR",
        Body::Gpt(_) => "GPT",
    }
}

// Adds the disk's GUID, where it has one.
fn push_disk(text: &mut String, body: &Body) -> Result<(), AllocError>
    ensures { OnOk result (string_bytes text.new ≡ string_bytes text.old ++ disk_text body.now) }
{
    match body {
        Body::Mbr { .. } => Ok(()),
        Body::Gpt(table) => {
            let mut buffer = [0; 36];
            text.push_str(", ")?;
            text.push_str(table.disk.to_text(&mut buffer))
        }
    }
}

// Adds the kind of the table, the disk's size, and its sectors.
fn push_sizes(
    text: &mut String,
    kind: &str,
    size: &str,
    sectors: u64,
    sector_size: u128,
) -> Result<(), AllocError>
    ensures { OnOk result (string_bytes text.new ≡ string_bytes text.old ++ sizes_text kind.now size.now sectors sector_size) }
{
    write!(
        text,
        "{kind}, {size}, {sectors} sectors of {sector_size} bytes"
    )
}

// Adds those of a layout.
fn push_sizes_of(
    alloc: Global,
    text: &mut String,
    sector_size: u128,
    layout: &Layout,
) -> Result<(), AllocError>
    requires { sector_size ≤ 4096 }
    ensures { OnOk result (string_bytes text.new ≡ string_bytes text.old ++ sizes_of sector_size layout.now) }
{
    let size = size_text(alloc, u128::from(layout.sectors) * sector_size)?;
    push_sizes(
        text,
        kind_name(&layout.body),
        size.as_str(),
        layout.sectors,
        sector_size,
    )
}

// Adds the first line: the kind of the table, the disk's size, its sectors, and its GUID.
#[tactic(auto, unfolding(crate::specs::Page::head_text))]
fn push_head(
    alloc: Global,
    text: &mut String,
    sector_size: u128,
    layout: &Layout,
) -> Result<(), AllocError>
    requires { sector_size ≤ 4096 }
    ensures { OnOk result (string_bytes text.new ≡ string_bytes text.old ++ head_text sector_size layout.now) }
{
    push_sizes_of(alloc, text, sector_size, layout)?;
    push_disk(text, &layout.body)?;
    text.push_str("\n")
}

fn heading_more(body: &Body) -> &'static str
    ensures { result.now ≡ heading_more body.now }
{
    match body {
        Body::Mbr { .. } => "",
        Body::Gpt(_) => "  Name",
    }
}

// Adds the headings of the columns.
fn push_headings(text: &mut String, widths: Widths, body: &Body) -> Result<(), AllocError>
    ensures { OnOk result (string_bytes text.new ≡ string_bytes text.old ++ headings widths body.now) }
{
    push_row(
        text,
        widths,
        "No.",
        "First",
        "Last",
        "Size",
        "Type",
        heading_more(body),
    )
}

// The path of a line, as far to the right as it lies inside others.
fn indented(alloc: Global, line: &Line) -> Result<String, AllocError>
    ensures { IfOk result (λ text. string_bytes text ≡ indented line.now) }
{
    let path = path_text(alloc, &line.item)?;
    let mut text = String::new(alloc);
    push_spaces(&mut text, 2 * depth_of(&line.place))?;
    text.push_str(path.as_str())?;
    Ok(text)
}

// Adds the line of a partition or of a block.
fn push_line(
    alloc: Global,
    text: &mut String,
    sector_size: u128,
    widths: Widths,
    line: &Line,
) -> Result<(), AllocError>
    requires { sector_size ≤ 4096 }
    ensures { OnOk result (string_bytes text.new ≡ string_bytes text.old ++ line_text sector_size widths line.now) }
{
    let item = &line.item;
    let path = indented(alloc, line)?;
    let first = format!(in alloc; "{}", item.first())?;
    let last = format!(in alloc; "{}", item.last())?;
    let size = count_text(alloc, sector_size, item.first(), item.last())?;
    let kind = kind_text(alloc, item)?;
    let more = more_text(alloc, item)?;
    push_row(
        text,
        widths,
        path.as_str(),
        first.as_str(),
        last.as_str(),
        size.as_str(),
        kind.as_str(),
        more.as_str(),
    )
}

fn push_lines(
    alloc: Global,
    text: &mut String,
    sector_size: u128,
    widths: Widths,
    lines: &[Line],
) -> Result<(), AllocError>
    requires { sector_size ≤ 4096 }
    ensures { OnOk result (string_bytes text.new ≡ string_bytes text.old ++ flat_map (line_text sector_size widths) lines.now) }
{
    for line in lines {
        push_line(alloc, text, sector_size, widths, line)?;
    }
    Ok(())
}

// Adds what stands above the columns.
fn push_top(
    alloc: Global,
    text: &mut String,
    sector_size: u128,
    layout: &Layout,
    lines: &[Line],
) -> Result<(), AllocError>
    requires { sector_size ≤ 4096 }
    ensures { OnOk result (string_bytes text.new ≡ string_bytes text.old ++ top_text sector_size layout.now lines.now) }
{
    push_head(alloc, text, sector_size, layout)?;
    push_bar(text, layout.sectors, lines)
}

// Adds the columns.
fn push_columns(
    alloc: Global,
    text: &mut String,
    sector_size: u128,
    widths: Widths,
    body: &Body,
    lines: &[Line],
) -> Result<(), AllocError>
    requires { sector_size ≤ 4096 }
    ensures { OnOk result (string_bytes text.new ≡ string_bytes text.old ++ columns_text sector_size widths body.now lines.now) }
{
    push_headings(text, widths, body)?;
    push_lines(alloc, text, sector_size, widths, lines)
}

// The page with these lines.
fn page_with(
    alloc: Global,
    sector_size: u128,
    layout: &Layout,
    lines: &[Line],
) -> Result<String, AllocError>
    requires { sector_size ≤ 4096 }
    ensures { IfOk result (λ text. string_bytes text ≡ page_with sector_size layout.now lines.now) }
{
    let widths = widths_of(alloc, layout.sectors, lines)?;
    let mut text = String::new(alloc);
    push_top(alloc, &mut text, sector_size, layout, lines)?;
    push_columns(alloc, &mut text, sector_size, widths, &layout.body, lines)?;
    Ok(text)
}

/// The page of a layout on sectors of `B` bytes.
///
/// First comes a line for the disk, then a bar of sixty characters, then the headings of the columns, and then a line for each partition
/// and for each block of free sectors, by first sectors, where what lies inside the extended partition or a slice stands below it.
///
/// The error is lack of memory.
pub fn page_text<const B: usize>(alloc: Global, layout: &Layout) -> Result<String, AllocError>
    requires { IsSectorSize B }
    ensures { IfOk result (λ text. IsPage B layout.now (string_bytes text)) }
{
    let rows = rows_in::<B>(alloc, layout)?;
    let blocks = all_free_blocks::<B>(alloc, layout)?;
    let lines = lines_of(alloc, rows.as_slice(), blocks.as_slice())?;
    page_with(alloc, B as u128, layout, lines.as_slice())
}
