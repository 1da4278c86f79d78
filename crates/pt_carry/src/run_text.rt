//! Runs of sectors as a text.

ghost use Rattle.std.specs.Prelude.{◌≡◌, IfErr, IfOk, Ok, Some, map, option_map};
ghost use Rattle.pt_carry.specs.Runs.{HasNoRuns, ends_of, number_of, run_between as between, run_of, runs_of};
ghost use Rattle.pt_carry.specs.Sentences.{runs_error_sentence};
ghost use Rattle.pt_carry.specs.declared.run_text.RunsError.TheVariants.{Memory};

use pt_path::parse_number;
use pt_sector::{Extent, Lba};
use std::alloc::{AllocError, Global};
use std::error::Error;
use std::fmt;

/// Why a text isn't one of runs.
#[derive(Clone, Copy, Debug, PartialEq, Eq)]
pub enum RunsError {
    /// The first line, counted from 1, that isn't a run's, or that no newline ends.
    BadLine(u64),
    /// Memory was refused.
    Memory,
}

impl fmt::Display for RunsError {
    ghost output = { λ error. Some (runs_error_sentence error) };

    fn fmt<W: fmt::Write>(&self, f: &mut fmt::Formatter<W>) -> fmt::Result {
        match self {
            RunsError::BadLine(line) => write!(f, "line {line} isn't a run's, FIRST LAST"),
            RunsError::Memory => f.write_str("out of memory"),
        }
    }
}

impl Error for RunsError {}

impl From<AllocError> for RunsError {
    ghost from_gives = { λ _ e. e ≡ Memory };

    fn from(_error: AllocError) -> RunsError {
        RunsError::Memory
    }
}

fn number_in(text: &str) -> Option<u64>
    ensures { result ≡ number_of text.now }
{
    parse_number(text)
}

// The sectors from one text's number to the other's.
fn run_between(first: &str, last: &str) -> Option<Extent>
    ensures { option_map ends_of result ≡ between (number_of first.now) (number_of last.now) }
{
    let first = number_in(first)?;
    let last = number_in(last)?;
    Extent::new(Lba(first), Lba(last))
}

// The run of a line.
fn read_run(line: &str) -> Option<Extent>
    ensures { option_map ends_of result ≡ run_of line.now }
{
    let (first, last) = line.split_once(' ')?;
    run_between(first, last)
}

/// The runs of a text, as `ptab free` prints blocks: each line is `FIRST LAST`, two numbers of sectors in decimal digits without a zero
/// in front, in order, the last below 2^63, with one space between them, and ends with a newline. A text with no line is no runs.
pub fn read_runs(alloc: Global, text: &str) -> Result<Vec<Extent>, RunsError>
    ensures ok { IfOk result (λ runs. runs_of text.now ≡ Ok (map ends_of runs.items)) }
    ensures err { IfErr result (HasNoRuns text.now) }
{
    let mut runs = Vec::new(alloc);
    let mut rest = text;
    while let Some((line, after)) = rest.split_once('\n') {
        let Some(run) = read_run(line) else {
            return Err(RunsError::BadLine(runs.len() as u64 + 1));
        };
        if runs.push(run).is_err() {
            return Err(RunsError::Memory);
        }
        rest = after;
    }
    if !rest.is_empty() {
        return Err(RunsError::BadLine(runs.len() as u64 + 1));
    }
    Ok(runs)
}
