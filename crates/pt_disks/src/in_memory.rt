//! Disks in memory: one that never fails, and one that fails in a call of one's choice and stops where one likes.
//!
//! docs/model.md tells the model of a device in words.
mod cache;
mod crash;
mod memory;
mod stop;

pub use crash::CrashDisk;
pub use memory::MemDisk;
