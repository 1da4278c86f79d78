//! The lines of blocks of sectors.

ghost use Rattle.std.specs.Prelude.{◌≡◌, flat_map, OnOk};
ghost use Rattle.std.specs.Io.KnownBytes.{Appends};
ghost use Rattle.pt_report.specs.Replies.{block_line, blocks_text};

use pt_edit::FreeBlock;
use std::io;
use std::io::Write;

/// Prints a line for each, or that there is none.
pub(crate) fn print_blocks<O: Write>(out: &mut O, blocks: &[FreeBlock]) -> io::Result<()>
    ensures { OnOk result (Appends (O.contents out.old) (O.contents out.new) (blocks_text blocks.now)) }
{
    if blocks.is_empty() {
        return out.write_all(b"none\n");
    }
    print_each(out, blocks)
}

fn print_each<O: Write>(out: &mut O, blocks: &[FreeBlock]) -> io::Result<()>
    ensures { OnOk result (Appends (O.contents out.old) (O.contents out.new) (flat_map block_line blocks.now)) }
{
    for block in blocks {
        print_block(out, block)?;
    }
    Ok(())
}

fn print_block<O: Write>(out: &mut O, block: &FreeBlock) -> io::Result<()>
    ensures { OnOk result (Appends (O.contents out.old) (O.contents out.new) (block_line block.now)) }
{
    match block.inside {
        Some(number) => writeln!(out, "{} {} {}", block.first, block.last, number),
        None => writeln!(out, "{} {}", block.first, block.last),
    }
}
