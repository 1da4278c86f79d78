//! What is wrong with a disk.

ghost use Rattle.std.specs.Prelude.{◌≡◌, Some};
ghost use Rattle.pt_layout.specs.Healthy.{finding_number};
ghost use Rattle.pt_layout.specs.declared.sound.finding.Finding.TheVariants as finding;
ghost use Rattle.pt_layout.specs.Sentences.{finding_sentence};

use pt_gpt::{CopyError, Side};
use pt_members::Layout;
use pt_path::Path;
use pt_recover::NoTable;
use pt_sector::Lba;
use std::error::Error;
use std::fmt;

/// What is wrong with a disk: the first that holds, in this order.
#[derive(Clone, Copy, Debug, PartialEq, Eq)]
pub enum Finding {
    /// The disk denotes nothing.
    NoTable(NoTable),
    /// The primary copy of a GPT doesn't exist: the first rule that it breaks.
    PrimaryCopy(CopyError),
    /// The backup copy of a GPT doesn't exist: the first rule that it breaks.
    BackupCopy(CopyError),
    /// The two copies have different tables.
    CopiesDiffer,
    /// The header of this side doesn't name the other header's sector as its alternate; the primary is reported first.
    Alternate(Side),
    /// Sector 0 of a GPT isn't protective: the protective record first, 48 zero bytes and the signature after it.
    Protective,
    /// The sectors of this member don't exist, or one isn't usable in what holds it: the first in path order.
    OutsideUsable(Path),
    /// Two siblings share a sector. Groups of siblings are in path order of what holds them, the top level first, and
    /// siblings in order of their first sectors, then of their paths: the first that meets the one just before it.
    Overlap(Path, Path),
    /// A sector of a table, the lowest, is in this partition or slice, the first in path order. A slice may have its
    /// own second sector, where no extended boot record stands there.
    OnTable(Path, Lba),
    /// Two used entries of a GPT have one unique GUID: the lowest higher number, then the lowest lower one.
    SameGuid(u64, u64),
    /// The second sector of this slice, the first one, begins with the magic of a label, and holds none.
    ForeignLabel(Path),
}

impl Finding {
    /// The number that stands for it in what is printed, from 1 to 11 in the order of the variants.
    pub fn number(self) -> u8
        ensures { result ≡ finding_number self }
    {
        match self {
            Finding::NoTable(_) => 1,
            Finding::PrimaryCopy(_) => 2,
            Finding::BackupCopy(_) => 3,
            Finding::CopiesDiffer => 4,
            Finding::Alternate(_) => 5,
            Finding::Protective => 6,
            Finding::OutsideUsable(_) => 7,
            Finding::Overlap(_, _) => 8,
            Finding::OnTable(_, _) => 9,
            Finding::SameGuid(_, _) => 10,
            Finding::ForeignLabel(_) => 11,
        }
    }
}

impl fmt::Display for Finding {
    ghost output = { λ finding. Some (finding_sentence finding) };

    fn fmt<W: fmt::Write>(&self, f: &mut fmt::Formatter<W>) -> fmt::Result {
        match self {
            Finding::NoTable(why) => write!(f, "there is no table: {why}"),
            Finding::PrimaryCopy(error) => {
                write!(f, "the primary copy of the GPT doesn't exist: {error}")
            }
            Finding::BackupCopy(error) => {
                write!(f, "the backup copy of the GPT doesn't exist: {error}")
            }
            Finding::CopiesDiffer => f.write_str("the copies of the GPT have different tables"),
            Finding::Alternate(Side::Primary) => {
                f.write_str("the primary header doesn't name the backup's sector")
            }
            Finding::Alternate(Side::Backup) => {
                f.write_str("the backup header doesn't name the primary's sector")
            }
            Finding::Protective => f.write_str("sector 0 isn't a protective MBR"),
            Finding::OutsideUsable(path) => { write!(f, "{path} isn't inside what may hold it") }
            Finding::Overlap(before, it) => write!(f, "{before} and {it} share a sector"),
            Finding::OnTable(path, at) => {
                write!(f, "{path} covers sector {}, where a table stands", at.0)
            }
            Finding::SameGuid(lower, higher) => {
                write!(f, "entries {lower} and {higher} have one unique GUID")
            }
            Finding::ForeignLabel(path) => {
                write!(f, "the second sector of slice {path} holds a foreign label")
            }
        }
    }
}

impl Error for Finding {}

impl From<NoTable> for Finding {
    ghost from_gives = { λ why f. f ≡ finding.NoTable why };

    fn from(why: NoTable) -> Finding {
        Finding::NoTable(why)
    }
}

/// Whether a disk is healthy: its layout, or the first thing that is wrong.
#[derive(Drop)]
pub enum Verdict {
    Yes(Layout),
    No(Finding),
}
