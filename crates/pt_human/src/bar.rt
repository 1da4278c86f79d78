//! The bar of a disk's use.

ghost use Rattle.std.specs.Prelude.{◌≡◌, ◌≤◌, ◌<◌, ◌++◌, OnOk, string_bytes};
ghost use Rattle.pt_human.specs.Bar.{bar_text, cell_bytes, cell_char, cell_first, cell_last, cells_text, char_of, has_cell};

use crate::lines::{Item, Line};
use std::alloc::AllocError;

/// How many characters a bar has.
const CELLS: u64 = 60;

/// What a line stands for in the bar: a partition for the last digit of its number, and a block for a point.
fn char_of(item: &Item) -> char
    ensures { result ≡ char_of item.now }
{
    match item {
        Item::Partition(row) => char::from(b'0' + (row.member.path.number % 10) as u8),
        Item::Free(_) => '.',
    }
}

// Whether a partition has one of these sectors, or a block all of them.
fn has_cell(item: &Item, first: u128, last: u128) -> bool
    ensures { result ≡ has_cell first last item.now }
{
    match item {
        Item::Partition(_) => item.first() <= last && first <= item.last(),
        Item::Free(_) => item.first() <= first && last <= item.last(),
    }
}

// The character of these sectors, by the last line that has them.
fn cell_char(lines: &[Line], first: u128, last: u128) -> char
    ensures { result ≡ cell_char lines.now first last }
{
    let mut shown = '#';
    for line in lines {
        if has_cell(&line.item, first, last) {
            shown = char_of(&line.item);
        }
    }
    shown
}

// The first sector of a character.
fn cell_first(sectors: u64, k: u64) -> u128
    requires { k ≤ 60 }
    ensures { result ≡ cell_first sectors k }
{
    u128::from(k) * u128::from(sectors) / 60
}

// The last sector of a character. It has one at least.
fn cell_last(sectors: u64, k: u64) -> u128
    requires { k < 60 }
    ensures { result ≡ cell_last sectors k }
{
    cell_first(sectors, k).max(cell_first(sectors, k + 1).saturating_sub(1))
}

// Adds a character.
fn push_cell(text: &mut String, sectors: u64, lines: &[Line], k: u64) -> Result<(), AllocError>
    requires { k < 60 }
    ensures { OnOk result (string_bytes text.new ≡ string_bytes text.old ++ cell_bytes sectors lines.now k) }
{
    text.push(cell_char(lines, cell_first(sectors, k), cell_last(sectors, k)))
}

fn push_cells(text: &mut String, sectors: u64, lines: &[Line]) -> Result<(), AllocError>
    ensures { OnOk result (string_bytes text.new ≡ string_bytes text.old ++ cells_text sectors lines.now) }
{
    for k in 0..CELLS {
        push_cell(text, sectors, lines, k)?;
    }
    Ok(())
}

/// Adds the bar of a disk with so many sectors and these lines.
#[tactic(auto, unfolding(crate::specs::Bar::bar_text))]
pub(crate) fn push_bar(text: &mut String, sectors: u64, lines: &[Line]) -> Result<(), AllocError>
    ensures { OnOk result (string_bytes text.new ≡ string_bytes text.old ++ bar_text sectors lines.now) }
{
    text.push_str("[")?;
    push_cells(text, sectors, lines)?;
    text.push_str("]\n")
}
