//! The names of partitions, decimal numbers, and both as texts.
//!
//! Nothing here takes memory.
#![tactic(auto)]

pub mod laws;
mod number;
mod path;

pub use number::{parse_number, parse_path};
pub use path::Path;
