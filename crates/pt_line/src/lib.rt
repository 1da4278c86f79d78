//! The command line of `ptab`: its words, read by `clap`.
#![tactic(auto)]

mod args;
mod help;
mod jobs;
mod line;
mod pages;
mod texts;

pub use args::take_words;
pub use line::{
    Adoption, Form, InUse, Job, Line, LineError, LockedBy, Medium, PrimaryCopy, SectorSize,
    read_line,
};
pub use texts::Texts;
