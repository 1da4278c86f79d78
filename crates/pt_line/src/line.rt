//! The command line.

ghost use Rattle.std.specs.Prelude.{◌≡◌, ◌∷◌, IfOk, MatchResult, codes};
ghost use Rattle.clap.specs.Walk.{texts as slice_texts};
ghost use Rattle.clap.specs.Words.{kind_of, subcommand_rows_of};
ghost use Rattle.pt_line.specs.declared.line.LineError.TheVariants.{Memory};
ghost use Rattle.pt_line.specs.inner.Lines.{HasNoJob, MeansJob, Tells};
ghost use Rattle.pt_line.specs.Lines.{Means, line_sentence};

use crate::jobs::line_of;
use crate::pages::{SIZES, command};
use crate::texts::Texts;
use clap::ArgMatches;
use clap::error::ErrorKind;
use std::alloc::{AllocError, Global};
use std::fmt;
use thiserror::Error;

/// How many bytes the sectors of the image have.
#[derive(Clone, Copy)]
pub enum SectorSize {
    Bytes512,
    Bytes4096,
}

/// Whose lock keeps other programs from writing the image meanwhile.
#[derive(Clone, Copy)]
pub enum LockedBy {
    /// The command's own.
    Ptab,
    /// The caller's, who says so by `--no-lock`.
    Caller,
}

/// How a table, or what is free in it, is shown.
#[derive(Clone, Copy)]
pub enum Form {
    /// In lines.
    Lines,
    /// As JSON, by `--json`.
    Json,
    /// As a page for people, by `--human`.
    Human,
}

/// What an adoption comes to, of another image's table or of a text's.
#[derive(Clone, Copy)]
pub enum Adoption {
    /// The image's new table.
    Written,
    /// Its plan alone, by `--plan`.
    Planned,
}

/// What becomes of the primary copy of a GPT while a table is written.
#[derive(Clone, Copy)]
pub enum PrimaryCopy {
    /// Its header is zeroed, by the specification's table.
    ByTable,
    /// It leads to the backup's array meanwhile.
    Kept,
}

/// What is opened.
#[derive(Clone, Copy)]
pub enum Medium {
    /// A plain file.
    File,
    /// A block device, by `--device`, or of `adopt`'s other image by `--other-device`.
    Device,
}

/// Whether a device that is in use may be written.
#[derive(Clone, Copy)]
pub enum InUse {
    Refused,
    /// It may, by `--in-use`.
    Allowed,
}

/// A command line that was read.
#[derive(Drop)]
pub struct Line {
    pub job: Job,
    /// The size of a sector, where the line says it.
    pub size: Option<SectorSize>,
    /// What the image is.
    pub medium: Medium,
    pub in_use: InUse,
}

/// What a command line asks for, with its texts as they were given.
#[derive(Drop)]
pub enum Job {
    /// A help text, or the version, which is to be printed.
    Help(String),
    Show {
        image: String,
        /// The file of a plan, as it would leave the image.
        after: Option<String>,
        /// The name of one copy of a GPT, which is shown alone.
        copy: Option<String>,
        form: Form,
    },
    Verify {
        image: String,
    },
    Locate {
        image: String,
        path: String,
        place: String,
    },
    Free {
        image: String,
        form: Form,
    },
    /// The partition types that have names. It is asked of no image.
    Types,
    Edit {
        image: String,
        fresh: Option<String>,
        words: Texts,
        primary: PrimaryCopy,
        locked_by: LockedBy,
    },
    Plan {
        image: String,
        fresh: Option<String>,
        words: Texts,
        primary: PrimaryCopy,
    },
    Check {
        image: String,
        file: String,
    },
    Apply {
        image: String,
        file: String,
        locked_by: LockedBy,
    },
    Repair {
        image: String,
        primary: PrimaryCopy,
        locked_by: LockedBy,
    },
    Adopt {
        image: String,
        other: String,
        other_medium: Medium,
        /// The file of the runs of sectors that are carried over too. `-` is standard input.
        data: Option<String>,
        adoption: Adoption,
        primary: PrimaryCopy,
        locked_by: LockedBy,
    },
    Set {
        image: String,
        /// The file of a table as text. `-` is standard input.
        table: String,
        fresh: Option<String>,
        adoption: Adoption,
        primary: PrimaryCopy,
        locked_by: LockedBy,
    },
}

/// Why a command line is no job.
#[derive(Debug, Drop, Error)]
pub enum LineError {
    /// A word isn't UTF-8.
    NotText,
    /// The words are not those of a command, as `clap` says.
    Usage(clap::Error),
    /// `--in-use` is given without `--device`.
    InUseAlone,
    /// Both `--json` and `--human` are given.
    TwoForms,
    /// Both `--plan` and `--data` are given.
    PlanWithData,
    /// Memory was refused.
    Memory,
}

impl fmt::Display for LineError {
    ghost output = { λ error. line_sentence error };

    fn fmt<W: fmt::Write>(&self, f: &mut fmt::Formatter<W>) -> fmt::Result {
        match self {
            LineError::NotText => f.write_str("an argument isn't UTF-8"),
            LineError::Usage(error) => fmt::Display::fmt(error, f),
            LineError::InUseAlone => f.write_str("the argument '--in-use' needs '--device'"),
            LineError::TwoForms => {
                f.write_str("the argument '--json' cannot be used with '--human'")
            }
            LineError::PlanWithData => {
                f.write_str("the argument '--data' cannot be used with '--plan'")
            }
            LineError::Memory => f.write_str("memory"),
        }
    }
}

impl From<AllocError> for LineError {
    ghost from_gives = { λ _ e. e ≡ Memory };

    fn from(_error: AllocError) -> LineError {
        LineError::Memory
    }
}

fn failed(alloc: Global, error: clap::Error) -> Result<Line, LineError>
    ensures { Tells (kind_of error) result }
{
    match error.kind() {
        ErrorKind::OutOfMemory => Err(LineError::Memory),
        ErrorKind::DisplayHelp | ErrorKind::DisplayVersion => Ok(Line {
            job: Job::Help(format!(in alloc; "{error}")?),
            size: None,
            medium: Medium::File,
            in_use: InUse::Refused,
        }),
        _ => Err(LineError::Usage(error)),
    }
}

/// The line that `clap`'s matches or its error come to.
// So `read_line` matches nothing while it owns its words.
fn answer(alloc: Global, found: Result<ArgMatches<'_>, clap::Error>) -> Result<Line, LineError>
    requires { IfOk found (λ m. ¬ HasNoJob (subcommand_rows_of m)) }
    ensures { MatchResult found.entry (λ m. MeansJob (subcommand_rows_of m) result) (λ e. Tells (kind_of e) result) }
{
    match found {
        Ok(matches) => line_of(alloc, &matches),
        Err(error) => failed(alloc, error),
    }
}

fn with_name<'a>(alloc: Global, words: &[&'a str]) -> Result<Vec<&'a str>, AllocError>
    ensures { IfOk result (λ line. slice_texts line.items ≡ codes "ptab" ∷ slice_texts words.now) }
{
    let mut line = Vec::new(alloc);
    line.push("ptab")?;
    line.extend_from_slice(words)?;
    Ok(line)
}

/// Reads the words after the program's name, as `clap` means them at the command.
///
/// A job is that of the subcommand which the words name, and its texts are the values of its arguments. A call for help,
/// or for the version, gives `Help`. `Usage` has `clap`'s error for words that are no command, and comes for no others; `Memory` is want of
/// memory. `NotText` never comes, since these words are texts: [`take_words`](crate::take_words) answers it.
pub fn read_line(alloc: Global, words: &[&str]) -> Result<Line, LineError>
    ensures means { Means (slice_texts words.now) result }
{
    let line = with_name(alloc, words)?;
    let command = command(alloc, SIZES.as_slice(), words)?;
    answer(alloc, command.try_get_matches_from(line.as_slice()))
}
