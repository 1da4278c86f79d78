//! The CRC-32 of bytes of which one part changed, from the sums of that part before and after; and that of two parts, from their sums.
//!
//! No other byte is read: what stands behind a part moves its sum, or the difference of two sums, whatever its bytes are.
#![tactic(auto)]

mod change;
mod steps;

pub use change::{sum_after_change, sum_of_both};
