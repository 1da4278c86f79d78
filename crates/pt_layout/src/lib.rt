//! One reading of a disk: its layout, and the first thing that is wrong with it.
#![tactic(auto)]

mod copies;
mod foreign;
mod health;
pub mod sound;
mod survey;

pub use crate::sound::{Finding, Verdict, unsound};
pub use health::{Head, verify};
pub use pt_members::{
    Body, Ebrs, Kind, Labelled, Labels, Layout, Member, Owner, Row, Rows, Slice, Source, is_owned,
    is_table, label_places, locate, owner,
};
pub use pt_path::{Path, parse_number, parse_path};
pub use pt_recover::{NoTable, SideError, Trace, recover, recover_from, recover_traced};
pub use pt_sector::Failure as VerifyError;
pub use survey::{Survey, survey_after, survey_disk};
