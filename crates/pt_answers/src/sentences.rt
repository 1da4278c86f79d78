//! What a person is told besides the line of a failure: its sentence, and of what wasn't opened what it is.

ghost use Rattle.std.specs.Prelude.{◌≡◌, ◌++◌, codes, IfSome, OnOk};
ghost use Rattle.std.specs.Io.KnownBytes.{Appends};
ghost use Rattle.pt_carry.specs.Sentences.{carry_error_sentence};
ghost use Rattle.pt_carry.specs.declared.error.CarryError.TheVariants.{Refused};
ghost use Rattle.pt_report.specs.Replies.{sentence_line};
ghost use Rattle.pt_answers.specs.Sentences.{Ends, bad_line_sentence, end_text, failure_sentence};
ghost use Rattle.pt_answers.specs.Sentences.{opening_sentence, plan_text_sentence, what_sentence};
ghost use Rattle.pt_answers.specs.Sentences.{text_for_person, unopened_sentence};

use crate::failure::{Failure, NoText};
use pt_carry::{CarryError, RunsError, Unfit};
use pt_disks::NoDevice;
use pt_plan::LikeError;
use pt_report::{Reply, Status};
use pt_sector::Lba;
use std::io;
use std::io::Write;

/// Who reads what the command prints.
#[derive(Clone, Copy, Debug, PartialEq, Eq)]
pub enum Reader {
    /// A program, or whoever looks at a file: the lines are all that is printed.
    Program,
    /// A person at a terminal, who is also told the sentence of a failure or a no.
    Person,
}

/// What stands at a path that wasn't opened.
#[derive(Clone, Copy, Debug, PartialEq, Eq)]
pub enum What {
    /// Nothing.
    Missing,
    Folder,
    /// Something that may not be opened so.
    NotAllowed,
    /// A block device, where a plain file is wanted.
    BlockDevice,
    /// A pipe, a terminal or a socket.
    Neither,
    /// It isn't known why that can't be opened.
    Unknown,
}

impl Failure {
    /// Prints its sentence, where it has one, on a line: after an Ok a writer that knows its bytes has it behind those that it had.
    /// `what` is what stands at the path that wasn't opened, where that was asked for.
    pub fn explain<E: Write>(&self, what: Option<What>, err: &mut E) -> io::Result<()>
        ensures { OnOk result (Appends (E.contents err.old) (E.contents err.new) (sentence_line (failure_sentence what self.now))) }
    {
        match self {
            Failure::Edit(why) => writeln!(err, "{why}"),
            Failure::Plan(why) => writeln!(err, "{why}"),
            Failure::Check(why) => writeln!(err, "{why}"),
            Failure::Repair(why) => writeln!(err, "{why}"),
            Failure::PlanText(line) => explain_plan_text(err, *line),
            Failure::Table(fault) => writeln!(err, "{fault}"),
            Failure::NoText(_, NoText::Unreadable) => explain_unopened(err, what),
            Failure::BadData(line) => writeln!(err, "{}", RunsError::BadLine(*line)),
            Failure::Unfit(at, why) => explain_unfit(err, *at, *why),
            Failure::Differs(at) => writeln!(err, "{}", CarryError::Differs(*at)),
            Failure::OtherSize => writeln!(err, "{}", LikeError::OtherSize),
            Failure::NoTable(why) | Failure::Other(why) => writeln!(err, "{why}"),
            Failure::NoSide(_, why) => writeln!(err, "{why}"),
            Failure::Opening(why) | Failure::OtherOpening(why) => explain_opening(err, why, what),
            Failure::Fault(fault) => writeln!(err, "{fault}"),
            _ => Ok(()),
        }
    }
}

// Why a sector isn't carried over.
fn explain_unfit<E: Write>(err: &mut E, at: Lba, why: Unfit) -> io::Result<()>
    ensures { OnOk result (Appends (E.contents err.old) (E.contents err.new)
        (carry_error_sentence (Refused at why) ++ codes "\n")) }
{
    writeln!(err, "{}", CarryError::Refused(at, why))
}

// That a line of a plan's text is none.
#[tactic(auto, using(crate::proofs::Texts::bad_line))]
fn explain_bad_line<E: Write>(err: &mut E, line: u64) -> io::Result<()>
    ensures { OnOk result (Appends (E.contents err.old) (E.contents err.new) (bad_line_sentence line ++ codes "\n")) }
{
    writeln!(
        err,
        "line {line} is not a plan's, or the text ends without the F of its last phase"
    )
}

// What is wrong with the text of a plan.
fn explain_plan_text<E: Write>(err: &mut E, line: u64) -> io::Result<()>
    ensures { OnOk result (Appends (E.contents err.old) (E.contents err.new) (plan_text_sentence line ++ codes "\n")) }
{
    if line == 0 {
        err.write_all(b"the text has more than 8 MiB or isn't UTF-8\n")
    } else {
        explain_bad_line(err, line)
    }
}

// What stands at a path that wasn't opened, where that was asked for.
fn explain_unopened<E: Write>(err: &mut E, what: Option<What>) -> io::Result<()>
    ensures { OnOk result (Appends (E.contents err.old) (E.contents err.new) (sentence_line (unopened_sentence what))) }
{
    match what {
        Some(what) => writeln!(err, "{}", sentence_of(what)),
        None => Ok(()),
    }
}

fn sentence_of(what: What) -> &'static str
    ensures { result.now ≡ what_sentence what }
{
    match what {
        What::Missing => "there is no such file",
        What::Folder => "it is a folder",
        What::NotAllowed => "opening it isn't allowed",
        What::BlockDevice => "it is a block device: give --device",
        What::Neither => "it is neither a file nor a device",
        What::Unknown => "it can't be opened",
    }
}

// Why an image isn't opened.
fn explain_opening<E: Write>(err: &mut E, why: &NoDevice, what: Option<What>) -> io::Result<()>
    ensures { OnOk result (Appends (E.contents err.old) (E.contents err.new) (sentence_line (opening_sentence what why.now))) }
{
    match why {
        NoDevice::Unopened => explain_unopened(err, what),
        NoDevice::Locked => err.write_all(b"the image's lock is held elsewhere\n"),
        NoDevice::NotBlock | NoDevice::InUse(_) => writeln!(err, "{why}"),
        NoDevice::SectorSize(_) | NoDevice::Memory => Ok(()),
    }
}

// Prints the line of a failure, and its sentence.
fn tell_person<E: Write>(failure: &Failure, what: Option<What>, err: &mut E) -> io::Result<()>
    ensures { OnOk result (IfSome (text_for_person what failure.now) (Appends (E.contents err.old) (E.contents err.new))) }
{
    failure.print(err)?;
    failure.explain(what, err)?;
    Ok(())
}

// Prints what there is to print of a run's end on standard error.
fn tell<E: Write>(
    ran: &Result<Reply, Failure>,
    reader: Reader,
    what: Option<What>,
    err: &mut E,
) -> io::Result<()>
    ensures { OnOk result (IfSome (end_text ran.now reader what) (Appends (E.contents err.old) (E.contents err.new))) }
{
    match (ran, reader) {
        (Ok(_), Reader::Program) => Ok(()),
        (Ok(reply), Reader::Person) => reply.explain(err),
        (Err(failure), Reader::Program) => failure.print(err),
        (Err(failure), Reader::Person) => tell_person(failure, what, err),
    }
}

/// Ends a run whose answer, if it has one, is printed: prints the line of a failure, and for a person the sentence of a failure or of a no.
/// Gives the status with which the command ends: where that can't be printed, a device's fault.
pub fn end<E: Write>(
    ran: &Result<Reply, Failure>,
    reader: Reader,
    what: Option<What>,
    err: &mut E,
) -> Status
    ensures { Ends ran.now reader what (E.contents err.old) (E.contents err.new) result }
{
    if tell(ran, reader, what, err).is_err() {
        return Status::Device;
    }
    match ran {
        Ok(reply) => Status::of_reply(reply),
        Err(failure) => failure.status(),
    }
}
