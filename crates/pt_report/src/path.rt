//! The names of partitions, as they are printed.

ghost use Rattle.std.specs.Prelude.{◌++◌, codes, OnOk};
ghost use Rattle.std.specs.Io.KnownBytes.{Appends};
ghost use Rattle.pt_report.specs.Shown.{path_text};

use pt_layout::Path;
use std::io;
use std::io::Write;

/// Prints a path.
pub fn print_path<O: Write>(out: &mut O, path: &Path) -> io::Result<()>
    ensures { OnOk result (Appends (O.contents out.old) (O.contents out.new) (path_text path.now)) }
{
    match path.letter {
        Some(letter) => write!(
            out,
            "{}.{}",
            path.number,
            char::from(b'a'.saturating_add(letter))
        ),
        None => write!(out, "{}", path.number),
    }
}

/// Prints a path behind a space.
pub fn print_behind<O: Write>(out: &mut O, path: &Path) -> io::Result<()>
    ensures { OnOk result (Appends (O.contents out.old) (O.contents out.new) (codes " " ++ path_text path.now)) }
{
    out.write_all(b" ")?;
    print_path(out, path)
}
