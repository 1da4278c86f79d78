//! The answers of the command, and the lines in which it tells them and why a disk denotes no layout (docs/commands.md).
#![tactic(auto)]

mod blocks;
mod finding;
pub mod laws;
mod layout;
mod name;
mod no_table;
mod path;
mod reply;
mod status;
mod why;

pub use name::{first_char, units};
pub use no_table::{print_no_side, print_no_table};
pub use reply::Reply;
pub use status::Status;
