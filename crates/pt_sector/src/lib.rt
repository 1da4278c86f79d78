//! Disks as lists of sectors: addresses, the trait of a disk, an overlay and a cache over one.
//!
//! docs/model.md tells the model of a device in words.
#![tactic(auto)]

mod address;
mod disk;
mod moments;
mod overlay;
mod own;
mod read_cache;
mod reading;
mod room;

pub use address::{Extent, Lba, Sector};
pub use disk::{Disk, Fault};
#[doc(hidden)]
pub use moments::Moments;
pub use overlay::Overlay;
#[doc(hidden)]
pub use own::Own;
#[doc(hidden)]
pub use read_cache::KeepsSectors;
pub use read_cache::ReadCache;
pub use reading::{FailedRead, Failure, read_sector};
pub use room::Room;
