//! What edit words make of a layout, or of nothing: all words in order, those on a GPT's entries, and `g`, which makes a GPT
//! of an MBR.
//!
//! docs/commands.md has the words, docs/model.md what they mean. Of `g` specs/Entries.antt says what is kept and where there is
//! room for a GPT, specs/Converted.antt what is made and why not.
#![tactic(auto)]

mod convert;
mod entries;
mod fold;
mod free;
mod gpt;
pub mod labels;
pub mod laws;
mod new_entry;
mod partitions;
mod paths;
pub mod records;
mod room;
pub mod space;

pub use convert::to_gpt;
pub use fold::edit;
pub use free::{FreeBlock, all_free_blocks, free_blocks};
pub use partitions::guids_for;
pub use pt_words::{Code, Edit, EditError, End, Refusal, parse_edit};
