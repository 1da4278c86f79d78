//! What is wanted of a disk.

use pt_edit::Edit;
use pt_guid::Guid;
use pt_layout::Layout;

/// What a disk is to denote, once it is healthy.
#[derive(Clone, Copy)]
pub enum Wanted<'a> {
    /// What these words make of its layout, each new GUID being the next of these.
    Edited(&'a [Edit], &'a [Guid]),
    /// This layout, wherever it comes from.
    Layout(&'a Layout),
    /// The layout that it denotes already.
    Own,
}
