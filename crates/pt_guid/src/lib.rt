//! GUIDs: the order of their stored bytes, their texts, and the type codes.
//!
//! Nothing here takes memory.
#![tactic(auto)]

mod codes;
mod guid;
pub mod laws;

pub use codes::{code_of_type, type_of_code, type_of_record};
pub use guid::{Guid, GuidError, fresh, parse};
