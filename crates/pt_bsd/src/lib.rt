//! BSD labels, whose entries' offsets are relative to the slice or absolute.
//!
//! The layout of a label and both forms stand in docs/format.md, "BSD labels (our choice)". Nothing here takes memory.
#![tactic(auto)]

mod decode;
mod empty;
mod encode;
mod form;
mod label;
pub mod laws;

pub use decode::{bears_magic, decode_label};
pub use empty::empty_label;
pub use encode::{encode_for, encode_label};
pub use form::Form;
pub use label::{Label, LabelEntry, LabelError, RAW, RESERVED};
