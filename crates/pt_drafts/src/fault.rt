//! What is wrong with a text.

ghost use Rattle.std.specs.Prelude.{◌≡◌, Some};
ghost use Rattle.pt_drafts.specs.Keys.{draft_error_sentence, fault_sentence, key_text};
ghost use Rattle.pt_drafts.specs.declared.fault.DraftError.TheVariants as error;

use std::alloc::{AllocError, AllocFailed};
use std::error::Error;
use std::fmt;

/// Where a fault lies: mostly the member that has it.
#[derive(Clone, Copy, Debug, PartialEq, Eq)]
pub enum Key {
    /// The text is no JSON.
    Text,
    /// The text isn't an object whose only member is `partitiontable`, an object.
    Table,
    /// A member has a name that none of its object has.
    Unknown,
    Label,
    Device,
    Unit,
    SectorSize,
    Sectors,
    Id,
    FirstLba,
    LastLba,
    Entries,
    TableLength,
    Partitions,
    Chain,
    Number,
    Node,
    Start,
    Size,
    Last,
    Offset,
    Type,
    TypeName,
    Uuid,
    Name,
    NameUnits,
    Attributes,
    Attrs,
    Bootable,
    Boot,
    StartChs,
    EndChs,
    Record,
    Bsd,
}

impl fmt::Display for Key {
    ghost output = { λ key. Some (key_text key) };

    fn fmt<W: fmt::Write>(&self, f: &mut fmt::Formatter<W>) -> fmt::Result {
        f.write_str(match self {
            Key::Text => "text",
            Key::Table => "partitiontable",
            Key::Unknown => "unknown",
            Key::Label => "label",
            Key::Device => "device",
            Key::Unit => "unit",
            Key::SectorSize => "sectorsize",
            Key::Sectors => "sectors",
            Key::Id => "id",
            Key::FirstLba => "firstlba",
            Key::LastLba => "lastlba",
            Key::Entries => "entries",
            Key::TableLength => "table-length",
            Key::Partitions => "partitions",
            Key::Chain => "chain",
            Key::Number => "number",
            Key::Node => "node",
            Key::Start => "start",
            Key::Size => "size",
            Key::Last => "last",
            Key::Offset => "offset",
            Key::Type => "type",
            Key::TypeName => "type_name",
            Key::Uuid => "uuid",
            Key::Name => "name",
            Key::NameUnits => "name_units",
            Key::Attributes => "attributes",
            Key::Attrs => "attrs",
            Key::Bootable => "bootable",
            Key::Boot => "boot",
            Key::StartChs => "start_chs",
            Key::EndChs => "end_chs",
            Key::Record => "record",
            Key::Bsd => "bsd",
        })
    }
}

/// The first fault of a text.
#[derive(Clone, Copy, Debug, PartialEq, Eq)]
pub struct TextFault {
    pub key: Key,
    /// In which object of `partitions` it lies, counted from 1 on.
    pub part: Option<u64>,
}

impl fmt::Display for TextFault {
    ghost output = { λ fault. Some (fault_sentence fault) };

    fn fmt<W: fmt::Write>(&self, f: &mut fmt::Formatter<W>) -> fmt::Result {
        match self.part {
            Some(part) => write!(
                f,
                "object {part} of `partitions` has a fault at `{}`",
                self.key
            ),
            None => write!(f, "the table's text has a fault at `{}`", self.key),
        }
    }
}

impl Error for TextFault {}

/// Why a text gives no draft.
#[derive(Clone, Copy, Debug, PartialEq, Eq)]
pub enum DraftError {
    Fault(TextFault),
    /// There is no memory.
    Memory,
}

impl fmt::Display for DraftError {
    ghost output = { λ error. Some (draft_error_sentence error) };

    fn fmt<W: fmt::Write>(&self, f: &mut fmt::Formatter<W>) -> fmt::Result {
        match self {
            DraftError::Fault(fault) => fmt::Display::fmt(fault, f),
            DraftError::Memory => f.write_str("there is no memory"),
        }
    }
}

impl Error for DraftError {}

impl From<AllocError> for DraftError {
    ghost from_gives = { λ _ e. e ≡ error.Memory };

    fn from(_: AllocError) -> DraftError {
        DraftError::Memory
    }
}

impl<T: Drop> From<AllocFailed<T>> for DraftError {
    ghost from_gives = { λ _ e. e ≡ error.Memory };

    fn from(_: AllocFailed<T>) -> DraftError {
        DraftError::Memory
    }
}

impl From<TextFault> for DraftError {
    ghost from_gives = { λ fault e. e ≡ error.Fault fault };

    fn from(fault: TextFault) -> DraftError {
        DraftError::Fault(fault)
    }
}
