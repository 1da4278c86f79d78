//! A table from a text of JSON, that of `ptab show --json` or of `sfdisk --json`: all that the text says, or its first fault.
//!
//! docs/table.md has the names in it and what they stand for.
#![tactic(auto)]

mod arrays;
mod attributes;
mod digits;
mod draft;
mod fault;
mod labels;
mod members;
mod names;
mod parts;
mod table;
#[cfg(test)]
mod tests;
mod text;
mod texts;
mod values;

pub use draft::{Chain, DiskId, Draft, Extent, NamedType, PartDraft, Parts, TableKind};
pub use fault::{DraftError, Key, TextFault};
pub use text::read_draft;
