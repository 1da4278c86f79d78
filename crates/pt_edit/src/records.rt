//! Words without a letter on an MBR: its records, its chain of extended boot records, and the labels that move with numbers.
//!
//! Numbers 1 to 4 are the records, numbers from 5 on the logical partitions. docs/commands.md has the words, docs/model.md
//! what they mean.
mod chain_create;
mod chain_edit;
mod creation;
mod edits;
pub mod laws;
mod parts;
mod types;

pub use chain_create::new_logical;
pub(crate) use chain_create::space_in;
pub use chain_edit::{delete_logical, set_logical_kind};
pub use creation::new;
pub(crate) use creation::record_space;
pub use edits::{delete, set_kind};
pub use parts::MbrParts;
pub use types::{is_container_type, is_slice_kind, new_type_of, record_type_of};
