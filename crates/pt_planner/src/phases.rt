//! Plans from targets: their phases, with both copies of a GPT's table or with none.
//!
//! With both copies in the order that the disk asks for; with none where an MBR becomes another one, or labels alone change.
mod copies;
mod reserved;
mod turns;

pub use copies::{Order, both_copies};
pub(crate) use reserved::{Reserved, touches, touches_owned};
pub use turns::{one_label, within_mbr};
