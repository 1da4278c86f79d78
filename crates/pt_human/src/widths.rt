//! How wide the columns of a page are.

ghost use Rattle.std.specs.Prelude.{◌≡◌, IfOk, fold};
ghost use Rattle.pt_human.specs.Page.{kinds_width, sectors_width, widths_of, wider};

use crate::cells::Widths;
use crate::lines::Line;
use crate::names::kind_text;
use std::alloc::{AllocError, Global};

// As wide as the number of the disk's sectors, which no sector's is longer than, and as the heading.
fn sectors_width(alloc: Global, sectors: u64) -> Result<usize, AllocError>
    ensures { IfOk result (λ width. width ≡ sectors_width sectors) }
{
    let number = format!(in alloc; "{sectors}")?;
    Ok(number.len().max(5))
}

// As wide as the longest type, and as the heading.
fn kinds_width(alloc: Global, lines: &[Line]) -> Result<usize, AllocError>
    ensures { IfOk result (λ width. width ≡ kinds_width lines.now) }
{
    let mut width = 4;
    for line in lines {
        let kind = kind_text(alloc, &line.item)?;
        width = kind.len().max(width);
    }
    Ok(width)
}

/// The widths for these lines, on a disk with so many sectors.
pub(crate) fn widths_of(alloc: Global, sectors: u64, lines: &[Line]) -> Result<Widths, AllocError>
    ensures { IfOk result (λ widths. widths ≡ widths_of sectors lines.now) }
{
    Ok(Widths {
        sectors: sectors_width(alloc, sectors)?,
        kinds: kinds_width(alloc, lines)?,
    })
}
