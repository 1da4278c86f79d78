//! Plans of sector writes: as values, as texts, and their application to a disk that may stop or fail.
//!
//! In a text a write is a line: `W`, a space, the sector in decimal without a zero in front, a space, and the sector's
//! bytes, two hexadecimal digits each. A line `F` ends each phase. Each line ends with a newline, and nothing else may stand
//! in a text. The empty text is that of the empty plan.
#![tactic(auto)]

mod digits;
mod error;
pub mod laws;
mod plan;
mod read;
mod write;

pub use error::PlanTextError;
pub use plan::{Plan, Write, apply};
pub use read::read_plan;
pub use write::plan_text;
