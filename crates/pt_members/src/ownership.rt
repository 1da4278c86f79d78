//! What a sector is for.

use pt_path::Path;

/// What a sector is for.
#[derive(Clone, Copy, Debug, PartialEq, Eq)]
pub enum Owner {
    /// A partition that holds no others has it.
    Partition(Path),
    /// It holds a table.
    Table,
    /// It lies in a slice, or outside the usable sectors of a GPT.
    Reserved,
    /// Nothing has it.
    Free,
}
