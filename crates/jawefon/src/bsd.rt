//! The BSD label of a slice.

pub use pt_bsd::{
    Form, Label, LabelEntry, LabelError, bears_magic, decode_label, empty_label, encode_label,
};
