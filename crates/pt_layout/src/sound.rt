//! What is right with a layout and with a disk: soundness, health, and the findings, in their order. `unsound` looks for the first finding
//! of a layout; that of a disk is looked for by `verify` of `pt_layout`.
mod buried;
mod faults;
mod finding;
mod groups;
pub mod laws;
mod overlap;
mod soundness;
mod spot;

pub use finding::{Finding, Verdict};
pub use soundness::unsound;
