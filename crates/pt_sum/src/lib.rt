//! Sums: CRC-32, and the exclusive or of 16-bit words.
//!
//! CRC-32 is the sum of UEFI 2.10 section 5.3.2: reflected, with polynomial EDB88320, initial value FFFFFFFF and a final complement.
//! Nothing here takes memory.
#![tactic(auto)]

mod crc;
pub mod laws;
mod tables;
mod words;

pub use crc::{Crc, crc32};
pub use words::xor16;
