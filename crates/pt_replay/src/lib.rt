//! Answers about a disk of which the caller knows some sectors (docs/c.md): what it denotes, whether it is healthy, where
//! a partition's sectors are, and checked plans of edits and repairs, and of the layout of another disk; its table as text,
//! its free blocks, and checked plans of the table that a text says.
//!
//! The caller reads and writes the disk. A call gets the sectors that were read so far, and ends with an answer or with the
//! number of one more sector that it wants. It keeps no state: the next call begins anew.
//!
//! Each call also takes `elsewhere`, which only proofs read: what stands in the sectors that are not given. The clauses say
//! that the answer holds of the disk with just these sectors, whichever they are.
#![tactic(auto)]

mod adopt;
mod answers;
mod asking;
mod buffers;
mod checking;
mod health;
mod index;
mod listing;
mod places;
mod plan_rows;
mod planning;
mod recovered;
mod refusals;
mod replay;
mod rows;
mod set;
mod tables;
mod view;
mod wanting;

pub use adopt::{adopt_planned, beyond};
pub use answers::{Answer, Reply, Status};
pub use checking::checked;
pub use health::verified;
pub use listing::members;
pub use places::located;
pub use planning::{mended, planned};
pub use rows::{FreeRow, GuidBytes, GuidText, MemberRow, TableRow, WriteRow};
pub use set::set_planned;
pub use tables::{free_listed, table_written};
pub use view::View;
pub use wanting::wanted;
