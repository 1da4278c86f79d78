//! The sums of the formats: CRC-32 of a GPT, and the exclusive or of a label.

pub use pt_sum::{Crc, crc32, xor16};
