//! The first finding on a disk, as it is printed.

ghost use Rattle.std.specs.Prelude.{◌≡◌, ◌∷◌, OnOk};
ghost use Rattle.std.specs.Io.KnownBytes.{Appends};
ghost use Rattle.pt_report.specs.Shown.{rest_of};
ghost use Rattle.pt_report.specs.Replies.{finding_fields, finding_line};
ghost use Rattle.pt_report.specs.inner.Replies.{names_in};

use crate::path::print_behind;
use pt_gpt::Side;
use pt_layout::Finding;
use std::io;
use std::io::Write;

/// Prints a finding as a no.
pub fn print_finding<O: Write>(out: &mut O, finding: &Finding) -> io::Result<()>
    ensures { OnOk result (Appends (O.contents out.old) (O.contents out.new) (finding_line finding.now)) }
{
    write!(out, "no {} {}", finding.number(), title(finding))?;
    print_named(out, finding)
}

// What it says before it names anything.
fn title(finding: &Finding) -> &'static str
    ensures { finding_fields finding.now ≡ result.now ∷ names_in finding.now }
{
    match finding {
        Finding::NoTable(_) => "no table",
        Finding::PrimaryCopy(_) => "primary copy",
        Finding::BackupCopy(_) => "backup copy",
        Finding::CopiesDiffer => "copies differ",
        Finding::Alternate(Side::Primary) => "alternate primary",
        Finding::Alternate(Side::Backup) => "alternate backup",
        Finding::Protective => "protective record",
        Finding::OutsideUsable(_) => "outside",
        Finding::Overlap(_, _) => "overlap",
        Finding::OnTable(_, _) => "on table",
        Finding::SameGuid(_, _) => "same guid",
        Finding::ForeignLabel(_) => "foreign label",
    }
}

// Prints what the finding names, each behind a space, and the line's end.
fn print_named<O: Write>(out: &mut O, finding: &Finding) -> io::Result<()>
    ensures { OnOk result (Appends (O.contents out.old) (O.contents out.new) (rest_of (names_in finding.now))) }
{
    match finding {
        Finding::NoTable(_) | Finding::CopiesDiffer | Finding::Alternate(_) | Finding::Protective =>
            out.write_all(b"\n"),
        Finding::PrimaryCopy(error) | Finding::BackupCopy(error) => writeln!(
            out,
            " {}",
            error.number()
        ),
        Finding::OutsideUsable(path) | Finding::ForeignLabel(path) => {
            print_behind(out, path)?;
            out.write_all(b"\n")
        }
        Finding::Overlap(before, it) => {
            print_behind(out, before)?;
            print_behind(out, it)?;
            out.write_all(b"\n")
        }
        Finding::OnTable(path, at) => {
            print_behind(out, path)?;
            writeln!(out, " {}", at.0)
        }
        Finding::SameGuid(lower, higher) => writeln!(out, " {lower} {higher}"),
    }
}
