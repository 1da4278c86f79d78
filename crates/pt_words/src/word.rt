//! Edit words as values.

use pt_guid::Guid;
use pt_path::Path;

/// One word of an edit.
#[derive(Debug, PartialEq, Eq, Drop)]
pub enum Edit {
    /// `a:K`: later words of the call round starts up to multiples of this many sectors, from 1 to 65536.
    Align(u64),
    /// `n:NUM:START:END[:CODE]`: a new partition.
    New {
        /// Its number, with a letter for one of a label; number 0 is the lowest that is free.
        path: Path,
        /// Its first sector before it is rounded up; 0 for the largest free block.
        start: u64,
        end: End,
        /// Its type; none for the table's default.
        code: Option<Code>,
    },
    /// `d:PATH`: a partition goes with all that it holds.
    Delete(Path),
    /// `t:PATH:CODE`: another type.
    SetKind(Path, Code),
    /// `c:NUM:NAME`: another name for an entry of a GPT.
    SetName(u64, String),
    /// `u:NUM:GUID`: another unique GUID for such an entry.
    SetUnique(u64, Guid),
    /// `U:GUID`: another disk GUID.
    SetDisk(Guid),
    /// `A:NUM:BIT:V`: an attribute bit of such an entry, 0 to 63, set or cleared.
    SetBit(u64, u8, bool),
    /// `e`: the last usable sector moves to where the disk's present end allows it.
    Extend,
    /// `g`: an MBR becomes a GPT.
    ToGpt,
    /// `o`: an empty GPT.
    Empty,
}

/// Where a new partition ends.
#[derive(Clone, Copy, Debug, PartialEq, Eq)]
pub enum End {
    /// `0`: where the free block ends.
    Block,
    /// `+K`: so many sectors from its start on, at least one.
    Length(u64),
    /// At this sector, inclusive.
    At(u64),
}

/// A partition's type as a word gives it, in hexadecimal digits.
#[derive(Clone, Copy, Debug, PartialEq, Eq)]
pub enum Code {
    /// Two digits: the type byte of an MBR record or of a label's entry.
    Two(u8),
    /// Four digits: a code for a type GUID of a GPT.
    Four(u16),
}
