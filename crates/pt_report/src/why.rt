//! The checker's no, as it is printed.

ghost use Rattle.std.specs.Prelude.{OnOk};
ghost use Rattle.std.specs.Io.KnownBytes.{Appends};
ghost use Rattle.pt_report.specs.Shown.{rest_of};
ghost use Rattle.pt_report.specs.Replies.{why_fields, why_line};

use pt_check::Why;
use std::io;
use std::io::Write;

/// Prints a no: the reason's number, and what it names.
pub fn print_no<O: Write>(out: &mut O, why: Why) -> io::Result<()>
    ensures { OnOk result (Appends (O.contents out.old) (O.contents out.new) (why_line why)) }
{
    write!(out, "no {}", why.number())?;
    print_named(out, why)
}

// Prints the numbers that the reason names, each behind a space, and the line's end.
fn print_named<O: Write>(out: &mut O, why: Why) -> io::Result<()>
    ensures { OnOk result (Appends (O.contents out.old) (O.contents out.new) (rest_of (why_fields why))) }
{
    match why {
        Why::TooManyWrites => out.write_all(b"\n"),
        Why::OutOfRange(it) | Why::BootCode(it) | Why::Neither(it) => writeln!(out, " {it}"),
        Why::ReadSector(phase, lba) => writeln!(out, " {phase} {}", lba.0),
        Why::NotATable(lba) | Why::Owned(lba) => writeln!(out, " {}", lba.0),
        Why::Final(finding) => writeln!(out, " {}", finding.number()),
    }
}
