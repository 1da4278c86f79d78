//! Where a new partition may be placed among taken sectors.
//!
//! It knows of sectors by number, and which of them the partitions in a table's places take. docs/commands.md has the
//! words that a place is asked for by.
mod block;
pub mod laws;
mod placement;
mod taken;

pub use block::blocks;
pub use placement::place;
pub use taken::{taken_by_entries, taken_by_logicals, taken_by_parts, taken_by_records};

/// Sectors from a first to a last one; none where the first is past the last.
#[derive(Clone, Copy, Default, PartialEq, Eq)]
pub struct Run {
    pub first: u128,
    pub last: u128,
}

/// What stands before a new partition.
#[derive(Drop)]
pub enum Lead {
    /// Nothing.
    None,
    /// Its own extended boot record, in the sector before it: a free one, or one of these, which hold an empty record
    /// already.
    Record(Vec<u64>),
}

/// Where a new partition is looked for.
#[derive(Drop)]
pub struct Space {
    /// The first usable sector.
    pub low: u128,
    /// The last usable one; none is usable where it is below the first.
    pub high: u128,
    /// What isn't free: the siblings, and extended boot records. In any order; runs may overlap, and reach past what is
    /// usable.
    pub taken: Vec<Run>,
    pub lead: Lead,
}
