//! Edit words: their values, their texts, and why one is refused.
//!
//! docs/commands.md has the words; what they make of a layout is `pt_edit`'s.
#![tactic(auto)]

mod asked;
mod error;
mod field;
pub mod laws;
mod parse;
mod word;
mod words;

pub use asked::Asked;
pub use error::{EditError, Refusal};
pub use parse::parse_edit;
pub use word::{Code, Edit, End};
