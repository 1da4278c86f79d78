//! Why a disk denotes no layout, as it is printed.

ghost use Rattle.std.specs.Prelude.{◌≡◌, ◌++◌, ◌∷◌, [], codes, decimal, OnOk};
ghost use Rattle.std.specs.Io.KnownBytes.{Appends};
ghost use Rattle.pt_report.specs.Shown.{line};
ghost use Rattle.pt_report.specs.Replies.{chain_text, copy_name as copy_name_of, no_side_text, no_table_text};

use pt_gpt::Side;
use pt_layout::{NoTable, SideError};
use pt_mbr::ChainError;
use std::io;
use std::io::Write;

/// Prints why a disk denotes no layout. A device's fault and lack of memory have the line that they have everywhere.
pub fn print_no_table<E: Write>(err: &mut E, why: NoTable) -> io::Result<()>
    ensures { OnOk result (Appends (E.contents err.old) (E.contents err.new) (no_table_text why)) }
{
    match why {
        NoTable::NoCopy(primary, backup) => print_pair(
            err,
            "copies",
            primary.number(),
            u64::from(backup.number()),
        ),
        NoTable::Chain(error) => print_chain(err, error),
        NoTable::TwoExtended => err.write_all(b"no table: two extended\n"),
        NoTable::TooSmall => err.write_all(b"no table: too small\n"),
        NoTable::Device(_) => err.write_all(b"device\n"),
        NoTable::Memory => err.write_all(b"memory\n"),
    }
}

/// Prints why one side's copy of a GPT gives no layout.
pub fn print_no_side<E: Write>(err: &mut E, side: Side, why: SideError) -> io::Result<()>
    ensures { OnOk result (Appends (E.contents err.old) (E.contents err.new) (no_side_text side why)) }
{
    match why {
        SideError::Copy(error) => print_copy(err, copy_name(side), error.number()),
        SideError::TooSmall => err.write_all(b"no table: too small\n"),
        SideError::Device(_) => err.write_all(b"device\n"),
        SideError::Memory => err.write_all(b"memory\n"),
    }
}

fn copy_name(side: Side) -> &'static str
    ensures { result.now ≡ copy_name_of side }
{
    match side {
        Side::Primary => "primary copy",
        Side::Backup => "backup copy",
    }
}

fn print_copy<E: Write>(err: &mut E, copy: &str, number: u8) -> io::Result<()>
    ensures { OnOk result (Appends (E.contents err.old) (E.contents err.new)
        (line ((codes "no table: " ++ copy.now) ∷ decimal number ∷ []))) }
{
    writeln!(err, "no table: {copy} {number}")
}

fn print_chain<E: Write>(err: &mut E, error: ChainError) -> io::Result<()>
    ensures { OnOk result (Appends (E.contents err.old) (E.contents err.new) (chain_text error)) }
{
    match error {
        ChainError::NoSignature(at)
        | ChainError::BadRecord(at)
        | ChainError::NotUpward(at)
        | ChainError::OutsideExtended(at) => print_pair(err, "chain", error.number(), at.0),
        ChainError::TooLong => writeln!(err, "no table: chain {}", error.number()),
        ChainError::Device(_) => err.write_all(b"device\n"),
    }
}

// Prints what denotes nothing, with two numbers that say why.
fn print_pair<E: Write>(err: &mut E, of: &str, first: u8, second: u64) -> io::Result<()>
    ensures { OnOk result (Appends (E.contents err.old) (E.contents err.new)
        (line ((codes "no table: " ++ of.now) ∷ decimal first ∷ decimal second ∷ []))) }
{
    writeln!(err, "no table: {of} {first} {second}")
}
