//! Sessions of commits, and the laws of runs of commits, repairs and sessions.
pub mod laws;
mod sessions;

pub use sessions::{Batch, Reply, session};
