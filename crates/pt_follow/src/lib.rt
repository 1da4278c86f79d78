//! One side's copy of a GPT, followed write by write.
//!
//! A copy is read once, beside a table. After each write of a sector it is known again whether the copy still stands, and still is of
//! that table, with no other sector read.
#![tactic(auto)]

mod array;
mod begin;
mod copy;
mod head;
mod standing;
mod sum;

pub use begin::follow;
pub use copy::FollowedCopy;
pub use standing::Standing;
