//! Labels as values.

ghost use Rattle.std.specs.Prelude.{Some};
ghost use Rattle.pt_bsd.specs.Sentences.{label_error_sentence};

use std::error::Error;
use std::fmt;

/// The label of a slice. Numbers are kept as read, also those that nothing here interprets.
#[derive(Clone, Copy, Debug, PartialEq, Eq)]
pub struct Label {
    /// The label's type: 0 in an empty label.
    pub kind: u16,
    /// Its subtype: 0 in an empty label.
    pub subtype: u16,
    /// The name of its type: bytes 8 to 23.
    pub type_name: [u8; 16],
    /// The name of this pack: bytes 24 to 39.
    pub pack_name: [u8; 16],
    /// Sectors per track, tracks, cylinders, and sectors per cylinder.
    pub geometry: [u32; 4],
    /// How many sectors the unit has.
    pub unit: u32,
    /// Bytes 64 to 131.
    pub kept: [u8; 68],
    /// The size of the boot area: 8192 in an empty label.
    pub bbsize: u32,
    /// The size of a file system's super-block: 0 in an empty label.
    pub sbsize: u32,
    /// The entries from a to h; `Some` exactly where the label counts the entry.
    pub entries: [Option<LabelEntry>; 8],
}

/// An entry of a label. It is a partition where its size isn't 0, whatever its type, except for c, the raw entry.
#[derive(Clone, Copy, Debug, PartialEq, Eq)]
pub struct LabelEntry {
    /// How many sectors it has.
    pub size: u32,
    /// Where it starts: counted from the slice's first sector, or on the disk, by the label's form.
    pub offset: u32,
    /// The size of a file system's fragments, as read.
    pub fragment: u32,
    /// 0 is unused, 1 swap, 7 a fast file system.
    pub fstype: u8,
    /// How many fragments a file system's block has, as read.
    pub frag: u8,
    /// How many cylinders a file system's group has, as read.
    pub cpg: u16,
}

/// The place of entry c, the raw entry, which is the whole slice.
pub const RAW: usize = 2;

/// How many sectors at a slice's start no partition of its label may have.
pub const RESERVED: u32 = 16;

/// Why a sector has no label for a slice: the first of these rules, in this order, that it breaks.
#[derive(Clone, Copy, Debug, PartialEq, Eq)]
pub enum LabelError {
    /// One of the two magic numbers isn't 82564557 (hexadecimal).
    Magic,
    /// It doesn't count 3 to 8 entries.
    Count,
    /// The exclusive or of the words up to the last counted entry isn't 0.
    Checksum,
    /// Its sectors don't have 512 bytes.
    SectorSize,
    /// Entry c doesn't have the slice's length, or starts neither at 0 nor at the slice's first sector.
    RawPartition,
}

impl fmt::Display for LabelError {
    ghost output = { λ error. Some (label_error_sentence error) };

    fn fmt<W: fmt::Write>(&self, f: &mut fmt::Formatter<W>) -> fmt::Result {
        f.write_str(match self {
            LabelError::Magic => "the label lacks one of its two magic numbers",
            LabelError::Count => "the label doesn't count 3 to 8 entries",
            LabelError::Checksum => "the label's checksum is wrong",
            LabelError::SectorSize => "the label's sectors don't have 512 bytes",
            LabelError::RawPartition => "the label's entry c isn't the slice",
        })
    }
}

impl Error for LabelError {}
