//! How a followed copy stands to its table.

/// How a followed copy stands to its table.
#[derive(Clone, Copy, Debug, PartialEq, Eq)]
pub enum Standing {
    /// It is a copy of the table.
    Gives,
    /// There is no copy: no header of the side stands there.
    LostHead,
    /// There is no copy: the array has another CRC than the header says, which tells of so many entries.
    LostArray(u32),
    /// Nothing is said of it. It may be a copy of another table, or the header tells of more entries than are known.
    Unclear,
}
