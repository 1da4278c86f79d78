//! The labels of a layout's slices: the words `t`, `d` and `n` with a letter, and the list of labels.
pub mod laws;
mod lists;
mod new;
mod parts;

pub use lists::{
    add_label, drop_label, drop_logical_labels, lower_labels, put_label, raise_labels,
};
pub use new::new_part;
pub(crate) use new::space_in;
pub use parts::{delete_part, set_part_kind};
