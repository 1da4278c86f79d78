//! Unit tests of the library, one module for each floor (docs/architecture.md).
#![tactic(auto)]

pub mod edits;
pub mod formats;
pub mod layouts;
pub mod plans;
