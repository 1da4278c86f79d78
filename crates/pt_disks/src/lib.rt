//! A disk in a plain file or in a block device.
#![tactic(auto)]

mod device;
mod file_disk;
pub mod in_memory;
mod mem_store;
mod numbers;
mod open;
mod store;
mod system;
mod uses;

pub use device::{InUse, NoDevice, device_sector_size};
pub use file_disk::{FileDisk, StoreDisk};
pub use mem_store::MemStore;
pub use open::{Access, OpenError, open_plain, open_readable};
pub use store::Store;
