//! The command `ptab`: shows, verifies, edits and repairs the partition table of a disk image, and plans and checks edits.
#![tactic(auto)]

mod images;
mod past;
mod what;

ghost use Rattle.std.specs.Prelude.{◌≡◌, Err, MatchResult};
ghost use Rattle.pt_answers.specs.Failures.{line_failure};
ghost use Rattle.pt_answers.specs.inner.Runs.{EndsAs, IsRunOf};

use images::FileImages;
use pt_answers::{Failure, Reader, What, end, run, texts_of};
use pt_disks::FileDisk;
use pt_line::{LineError, Texts, take_words};
use pt_report::{Reply, Status};
use pt_sector::Disk;
use std::fs::File;
use std::io::{BufWriter, IsTerminal, Read};
use std::process::ExitCode;

/// Runs the words after the program's name, with its answers on standard output. Where a person reads standard error, `what` then says
/// what stands at the path that wasn't opened.
fn on_output(
    rt: &HostRuntime,
    words: &Texts,
    reader: Reader,
    what: &mut Option<What>,
) -> Result<Reply, Failure>
    ensures { IsRunOf ⟦<FileDisk<512> as Disk<512>>⟧ ⟦<FileDisk<4096> as Disk<4096>>⟧ ⟦<File as Read>⟧.remaining
        words.now result }
{
    let texts = texts_of(rt.alloc(), words)?;
    let mut small = FileImages::<512, HostRuntime>::new(rt, reader);
    let mut large = FileImages::<4096, HostRuntime>::new(rt, reader);
    match BufWriter::new(rt.alloc(), rt.stdout()) {
        Ok(mut out) => {
            let ran = run(
                rt.alloc(),
                &mut small,
                &mut large,
                texts.as_slice(),
                &mut out,
            );
            *what = small.what().or(large.what());
            ran
        }
        Err(_) => Err(Failure::Memory),
    }
}

/// What the words come to, or why the system gives none.
fn ran_words(
    rt: &HostRuntime,
    words: Result<Texts, LineError>,
    reader: Reader,
    what: &mut Option<What>,
) -> Result<Reply, Failure>
    ensures { MatchResult words (λ list. IsRunOf ⟦<FileDisk<512> as Disk<512>>⟧ ⟦<FileDisk<4096> as Disk<4096>>⟧ ⟦<File as Read>⟧.remaining
        list result) (λ error. result ≡ Err (line_failure error)) }
{
    let list = words?;
    on_output(rt, &list, reader, what)
}

/// Who reads standard error.
fn reader_of_errors(rt: &HostRuntime) -> Reader {
    if rt.stderr().is_terminal() {
        Reader::Person
    } else {
        Reader::Program
    }
}

/// Who is told a sentence at the end of a run: where there is an answer, a person who reads both it and standard error.
fn reader_of_end(rt: &HostRuntime, ran: &Result<Reply, Failure>, errors: Reader) -> Reader {
    if ran.is_ok() && !rt.stdout().is_terminal() {
        Reader::Program
    } else {
        errors
    }
}

/// The status with which the program ends, once what there is to say is on standard error.
fn end_of(
    rt: &HostRuntime,
    ran: Result<Reply, Failure>,
    errors: Reader,
    what: Option<What>,
) -> Status
    ensures { EndsAs ran result }
{
    let reader = reader_of_end(rt, &ran, errors);
    end(&ran, reader, what, &mut rt.stderr())
}

fn main(rt: HostRuntime) -> ExitCode {
    let words = take_words(&rt);
    let errors = reader_of_errors(&rt);
    let mut what = None;
    let ran = ran_words(&rt, words, errors, &mut what);
    ExitCode::from(end_of(&rt, ran, errors, what).code())
}
