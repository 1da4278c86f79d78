//! What a draft of a table makes of a disk: the layout, with what the draft leaves out, its plan, and a commit of it.
//!
//! docs/table.md has what is taken for each name that a text leaves out.
#![tactic(auto)]

mod chains;
mod disk;
mod entries;
mod error;
mod faults;
mod gpt;
mod head;
mod mbr;
mod past;
mod places;
mod records;
mod table;

pub use disk::{commit_draft, plan_draft};
pub use error::SetError;
pub use table::table_for;
