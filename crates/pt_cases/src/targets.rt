//! Targets: what the sectors of a wanted layout must hold, and the writes that are left of them.
mod error;
mod target;
mod writes;

pub use error::PlanError;
pub use target::{
    Target, TargetKind, first_change, first_owned_change, first_owned_of_kind, in_order, is_change,
    is_unread_new, owned_in,
};
pub use writes::{Split, new_writes, one_change, split_changes};
