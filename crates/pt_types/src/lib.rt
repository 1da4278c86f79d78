//! The names of partition types: which type a text names, on a GPT and on an MBR, and the list of them all.
//!
//! One table is all that there is to know of a type. Only its text takes memory.
#![tactic(auto)]

mod entries;
pub mod laws;
mod listing;
mod lookup;
mod records;
#[cfg(test)]
mod tests;
mod texts;

pub use entries::{EntryType, entry_types};
pub use listing::types_text;
pub use records::{RecordType, record_types};
pub use texts::{entry_type, entry_type_name, record_type, record_type_name};
