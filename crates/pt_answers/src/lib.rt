//! The command over anything that opens images: what each subcommand answers on any disk, and what a line of words comes to, with its
//! exit status (docs/commands.md).
#![tactic(auto)]

mod changes;
mod command;
mod failure;
mod files;
mod forms;
mod from_errors;
mod images;
mod jobs;
mod sentences;
mod tasks;
mod views;
mod words;

pub use changes::{
    adopt_disk, adopt_disk_with, apply_disk, check_on, edit_disk, plan_adopt, plan_edit, plan_set,
    repair_disk, set_disk,
};
pub use command::{printed, run};
pub use failure::{Failure, NoText, TextOf};
pub use from_errors::as_device;
pub use images::{Images, Opening};
pub use pt_report::Status;
pub use sentences::{Reader, What, end};
pub use views::{
    copy_named, free_on, locate_on, place_named, show_after, show_copy, show_disk, verify_disk,
};
pub use words::texts_of;
