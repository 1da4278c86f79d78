//! A table as text: one object of JSON, in the manner of `sfdisk --json`. And blocks of free sectors.
//!
//! docs/table.md has the names in it and what they stand for.
#![tactic(auto)]

mod attributes;
mod entries;
mod free;
mod labels;
pub mod laws;
mod names;
mod object;
mod records;
mod text;
mod widths;

pub use attributes::attribute_words;
pub use free::free_text;
pub use text::table_text;
pub use widths::field_widths;
