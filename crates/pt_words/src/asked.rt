//! What a word `n` asks for.

use crate::word::{Code, End};

/// A new partition as a word `n` asks for it, with the alignment of starts.
#[derive(Clone, Copy)]
pub struct Asked {
    /// Its number, or that of the slice whose label it comes to; 0 is the lowest that is free.
    pub number: u64,
    /// Its first sector is rounded up to a multiple of this many sectors.
    pub alignment: u64,
    /// Its first sector before that; 0 for the largest free block.
    pub start: u64,
    pub end: End,
    /// Its type; none for the table's default.
    pub code: Option<Code>,
}
