//! A table as a page for people: its partitions and the gaps between them in the order of the disk, with sizes in binary units, the names
//! of types, and a bar of the disk's use.
//!
//! docs/commands.md shows such a page and says what stands in it. The definitions in specs/ are that page, to the byte.
#![tactic(auto)]

mod bar;
mod cells;
mod lines;
mod names;
mod page;
mod places;
mod sizes;
mod widths;

pub use page::page_text;
