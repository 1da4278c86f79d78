//! Why a text is no word, and why a word is refused.

ghost use Rattle.std.specs.Prelude.{◌≡◌, Some};
ghost use Rattle.pt_words.specs.Words.{error_number, refusal_number};
ghost use Rattle.pt_words.specs.declared.error.EditError.TheVariants as error;
ghost use Rattle.pt_words.specs.declared.error.Refusal.TheVariants as refused;
ghost use Rattle.pt_words.specs.Sentences.{edit_error_sentence, refusal_sentence};

use pt_guid::GuidError;
use std::alloc::AllocError;
use std::error::Error;
use std::fmt;

/// Why a text is no edit word: the letter is judged first, then the count of the fields, then the fields from the left.
#[derive(Clone, Copy, Debug, PartialEq, Eq)]
pub enum EditError {
    /// What stands before the first colon is none of the eleven letters.
    UnknownLetter,
    /// The letter takes another count of fields.
    FieldCount,
    /// A number or a path that is none, or out of its range.
    NotANumber,
    /// A GUID that is none.
    NotAGuid,
    /// Not two or four hexadecimal digits.
    NotACode,
    /// There was no memory for a name.
    Memory,
}

impl From<AllocError> for EditError {
    ghost from_gives = { λ _ e. e ≡ error.Memory };

    fn from(_e: AllocError) -> EditError {
        EditError::Memory
    }
}

impl EditError {
    /// The number that stands for it, from 1 to 6 in the order of the variants.
    pub fn number(self) -> u8
        ensures { result ≡ error_number self }
    {
        match self {
            EditError::UnknownLetter => 1,
            EditError::FieldCount => 2,
            EditError::NotANumber => 3,
            EditError::NotAGuid => 4,
            EditError::NotACode => 5,
            EditError::Memory => 6,
        }
    }
}

impl fmt::Display for EditError {
    ghost output = { λ error. Some (edit_error_sentence error) };

    fn fmt<W: fmt::Write>(&self, f: &mut fmt::Formatter<W>) -> fmt::Result {
        f.write_str(match self {
            EditError::UnknownLetter => "another letter than a word's",
            EditError::FieldCount => "another number of fields",
            EditError::NotANumber => "a number or a path that is none, or out of range",
            EditError::NotAGuid => "not a GUID",
            EditError::NotACode => "a code that isn't two or four hexadecimal digits",
            EditError::Memory => "out of memory",
        })
    }
}

impl Error for EditError {}

impl From<GuidError> for EditError {
    ghost from_gives = { λ _ e. e ≡ error.NotAGuid };

    fn from(_error: GuidError) -> EditError {
        EditError::NotAGuid
    }
}

/// Why a word is refused.
#[derive(Clone, Copy, Debug, PartialEq, Eq)]
pub enum Refusal {
    /// There is no such partition, or none may have this number.
    NoSuchPartition,
    /// Another partition has this number.
    NumberTaken,
    /// No number, or no sectors, are free.
    NoSpace,
    /// The start isn't usable, or the end is past what is usable.
    OutsideUsable,
    /// The start or the end is in no free block.
    Overlap,
    /// No code of this kind of table.
    UnknownCode,
    /// The name has more than 36 units of UTF-16.
    NameTooLong,
    /// A container's type, or a container of that many sectors, can't be taken here.
    ContainerType,
    /// The word isn't for this kind of table, or there is no table.
    NotForThisTable,
    /// The list of fresh GUIDs is at its end.
    NoFreshGuid,
    /// Another used entry has this GUID.
    SameGuid,
    /// The disk or its partitions leave no room for a GPT.
    NoRoomForGpt,
    /// The slice has no label.
    ForeignLabel,
    /// There was no memory for the layout.
    Memory,
    /// The label counts its offsets from another sector.
    LabelOffset,
}

impl From<AllocError> for Refusal {
    ghost from_gives = { λ _ refusal. refusal ≡ refused.Memory };

    fn from(_e: AllocError) -> Refusal {
        Refusal::Memory
    }
}

impl Refusal {
    /// The number that stands for it, from 1 to 15 in the order of the variants.
    pub fn number(self) -> u8
        ensures { result ≡ refusal_number self }
    {
        match self {
            Refusal::NoSuchPartition => 1,
            Refusal::NumberTaken => 2,
            Refusal::NoSpace => 3,
            Refusal::OutsideUsable => 4,
            Refusal::Overlap => 5,
            Refusal::UnknownCode => 6,
            Refusal::NameTooLong => 7,
            Refusal::ContainerType => 8,
            Refusal::NotForThisTable => 9,
            Refusal::NoFreshGuid => 10,
            Refusal::SameGuid => 11,
            Refusal::NoRoomForGpt => 12,
            Refusal::ForeignLabel => 13,
            Refusal::Memory => 14,
            Refusal::LabelOffset => 15,
        }
    }
}

impl fmt::Display for Refusal {
    ghost output = { λ refusal. Some (refusal_sentence refusal) };

    fn fmt<W: fmt::Write>(&self, f: &mut fmt::Formatter<W>) -> fmt::Result {
        f.write_str(match self {
            Refusal::NoSuchPartition => "no such partition",
            Refusal::NumberTaken => "the number is taken",
            Refusal::NoSpace => "no space",
            Refusal::OutsideUsable => "outside the usable sectors",
            Refusal::Overlap => "it would share a sector with another",
            Refusal::UnknownCode => "not a type code there",
            Refusal::NameTooLong => "a name over 36 units",
            Refusal::ContainerType => "not with a container",
            Refusal::NotForThisTable => "the word isn't for this kind of table",
            Refusal::NoFreshGuid => "no fresh GUID is left",
            Refusal::SameGuid => "another partition has this GUID",
            Refusal::NoRoomForGpt => "the disk has no room for a GPT",
            Refusal::ForeignLabel => "a letter in a slice without a label",
            Refusal::Memory => "out of memory",
            Refusal::LabelOffset =>
                "the offset doesn't fit a label that counts sectors of the disk",
        })
    }
}

impl Error for Refusal {}
