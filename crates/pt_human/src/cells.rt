//! Lines in columns.

ghost use Rattle.std.specs.Prelude.{◌≡◌, ◌++◌, ◌-◌, OnOk, length, replicate, string_bytes};
ghost use Rattle.pt_human.specs.Cells.{end_cells, kind_cell, number_cell, pad_left, pad_right, path_cell, row_text};
ghost use Rattle.pt_human.specs.Cells.{sector_cells};

use std::alloc::AllocError;

/// How wide the columns are that have no width of their own: those of sectors, and of types.
#[derive(Clone, Copy)]
pub struct Widths {
    pub sectors: usize,
    pub kinds: usize,
}

/// How wide the column of paths is: two spaces for each of two partitions around, and a number of three digits with a letter.
const PATHS: usize = 9;

/// How wide the column of sizes is: four digits, a point and one more, a space, and a unit.
const SIZES: usize = 10;

/// Adds this many spaces.
pub(crate) fn push_spaces(text: &mut String, count: usize) -> Result<(), AllocError>
    ensures { OnOk result (string_bytes text.new ≡ string_bytes text.old ++ replicate count 32) }
{
    for _k in 0..count {
        text.push_str(" ")?;
    }
    Ok(())
}

// Adds a cell at the right of its column.
fn push_left(text: &mut String, width: usize, cell: &str) -> Result<(), AllocError>
    ensures { OnOk result (string_bytes text.new ≡ string_bytes text.old ++ pad_left width cell.now) }
{
    push_spaces(text, width.saturating_sub(cell.len()))?;
    text.push_str(cell)
}

// Adds a cell at the left of its column.
fn push_right(text: &mut String, width: usize, cell: &str) -> Result<(), AllocError>
    ensures { OnOk result (string_bytes text.new ≡ string_bytes text.old ++ pad_right width cell.now) }
{
    text.push_str(cell)?;
    push_spaces(text, width.saturating_sub(cell.len()))
}

// Adds a type and what stands behind it. Where nothing does, the line ends with the type.
fn push_kind(text: &mut String, width: usize, kind: &str, more: &str) -> Result<(), AllocError>
    ensures { OnOk result (string_bytes text.new ≡ string_bytes text.old ++ kind_cell width kind.now more.now) }
{
    if more.is_empty() {
        return text.push_str(kind);
    }
    push_right(text, width, kind)?;
    text.push_str(more)
}

// Adds a path.
fn push_path(text: &mut String, path: &str) -> Result<(), AllocError>
    ensures { OnOk result (string_bytes text.new ≡ string_bytes text.old ++ path_cell path.now) }
{
    push_right(text, PATHS, path)?;
    text.push_str("  ")
}

// Adds a number or a size.
fn push_number(text: &mut String, width: usize, number: &str) -> Result<(), AllocError>
    ensures { OnOk result (string_bytes text.new ≡ string_bytes text.old ++ number_cell width number.now) }
{
    push_left(text, width, number)?;
    text.push_str("  ")
}

// Adds the first and the last sector.
fn push_sectors(text: &mut String, width: usize, first: &str, last: &str) -> Result<(), AllocError>
    ensures { OnOk result (string_bytes text.new ≡ string_bytes text.old ++ sector_cells width first.now last.now) }
{
    push_number(text, width, first)?;
    push_number(text, width, last)
}

// Adds a size, a type and what stands behind it, and the line's end.
fn push_end(
    text: &mut String,
    width: usize,
    size: &str,
    kind: &str,
    more: &str,
) -> Result<(), AllocError>
    ensures { OnOk result (string_bytes text.new ≡ string_bytes text.old ++ end_cells width size.now kind.now more.now) }
{
    push_number(text, SIZES, size)?;
    push_kind(text, width, kind, more)?;
    text.push_str("\n")
}

/// Adds a line of these cells.
#[tactic(auto, unfolding(crate::specs::Cells::row_text))]
pub(crate) fn push_row(
    text: &mut String,
    widths: Widths,
    path: &str,
    first: &str,
    last: &str,
    size: &str,
    kind: &str,
    more: &str,
) -> Result<(), AllocError>
    ensures { OnOk result (string_bytes text.new ≡ string_bytes text.old
        ++ row_text widths path.now first.now last.now size.now kind.now more.now) }
{
    push_path(text, path)?;
    push_sectors(text, widths.sectors, first, last)?;
    push_end(text, widths.kinds, size, kind, more)
}
