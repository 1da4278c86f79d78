use pt_path::Path;

/// What a member of a layout is.
#[derive(Clone, Copy, Debug, Default, PartialEq, Eq)]
pub enum Kind {
    /// A partition that holds no others.
    #[default]
    Leaf,
    /// A slice, which a BSD label divides.
    Slice,
    /// The extended partition.
    Extended,
}

/// A used entry, a used record, a logical partition or a partition of a label.
///
/// Its sectors are wide, since those of a record or entry from a damaged disk may lie past 2^64.
#[derive(Clone, Copy, Debug, Default, PartialEq, Eq)]
pub struct Member {
    pub path: Path,
    pub kind: Kind,
    pub first: u128,
    pub last: u128,
}
