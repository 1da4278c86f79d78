//! Data that is carried before a table changes: a disk becomes like another one, on which a tool worked, together with what that
//! wrote to sectors that no partition of the old table owns.
//!
//! The data is written, flushed and compared before the first write of the table's plan, so a partition appears with its file
//! system or not at all.
#![tactic(auto)]

mod carry;
mod compare;
mod copy;
mod error;
mod fit;
mod known;
mod run_text;

pub use carry::commit_like_with;
pub use error::{CarryError, Unfit};
pub use run_text::{RunsError, read_runs};
