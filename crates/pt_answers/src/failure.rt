//! Why the command ends without an answer.

ghost use Rattle.std.specs.Prelude.{◌≡◌, ◌++◌, codes, IfSome, OnOk, Some};
ghost use Rattle.std.specs.Io.KnownBytes.{Appends};
ghost use Rattle.std.specs.IoError.{error_kind};
ghost use Rattle.pt_answers.specs.Failures.{IsTold, failure_text, fault_line, fault_line_of};
ghost use Rattle.pt_answers.specs.Failures.{no_text_line, opening_text, output_failure, refusal_line};
ghost use Rattle.pt_answers.specs.Failures.{reason_word as word_of_reason, unfit_line};
ghost use Rattle.pt_drafts.specs.Keys.{key_text};
ghost use Rattle.pt_report.specs.Replies.{no_table_text};
ghost use Rattle.pt_answers.specs.Statuses.{failure_status, opening_status as status_of_opening, reason_status, side_status, text_status};

use pt_carry::Unfit;
use pt_check::Why;
use pt_disks::NoDevice;
use pt_drafts::{Key, TextFault};
use pt_edit::Refusal;
use pt_gpt::Side;
use pt_layout::{NoTable, SideError};
use pt_plan::{PlanError, RepairError};
use pt_report::{Status, print_no_side, print_no_table};
use pt_sector::{Fault, Lba};
use std::io;
use std::io::{ErrorKind, Write};

/// Why the command ends without an answer: a line on standard error, and a status.
#[derive(Drop)]
pub enum Failure {
    /// An argument isn't UTF-8.
    NotText,
    /// The words are not those of a command, as `clap` says.
    Usage(clap::Error),
    /// `--in-use` without `--device`.
    InUseAlone,
    /// `--json` with `--human`.
    TwoForms,
    /// `--plan` with `--data`.
    PlanWithData,
    BadWord(String),
    BadFresh,
    /// A text isn't one of runs of sectors: its first bad line, counted from 1.
    BadData(u64),
    BadPath,
    BadNumber,
    /// `--copy` names neither copy, or stands beside `--after`.
    BadCopy,
    /// Why an edit was refused.
    Edit(Refusal),
    /// Why there is no plan.
    Plan(PlanError),
    /// Why the checker refused a plan.
    Check(Why),
    /// Why a repair was refused.
    Repair(RepairError),
    /// A text is no plan's: its first bad line, counted from 1; 0 where it is too long or no UTF-8.
    PlanText(u64),
    /// The first fault of a table's text.
    Table(TextFault),
    /// A text isn't read.
    NoText(TextOf, NoText),
    /// A sector of the data isn't carried over.
    Unfit(Lba, Unfit),
    /// The image whose table is to be taken has another number of sectors.
    OtherSize,
    /// Why that image isn't opened.
    OtherOpening(NoDevice),
    /// Why that image has no table to take.
    Other(NoTable),
    NoTable(NoTable),
    /// Why one copy of a GPT gives no table.
    NoSide(Side, SideError),
    /// Why the image isn't opened.
    Opening(NoDevice),
    /// A call on an image failed.
    Fault(Fault),
    /// A sector of the data doesn't read as it was written.
    Differs(Lba),
    /// The file of a plan can't be read, or the output failed.
    Device,
    /// Nobody reads the output any more: there is no line, since that is nobody's fault.
    ClosedPipe,
    Memory,
}

/// Which text it is.
#[derive(Clone, Copy, Debug, PartialEq, Eq)]
pub enum TextOf {
    /// A table's.
    Table,
    /// That of runs of sectors, the data.
    Data,
}

/// Why a text isn't read.
#[derive(Clone, Copy, Debug, PartialEq, Eq)]
pub enum NoText {
    /// Its file can't be opened or read.
    Unreadable,
    /// It has more than 8 MiB.
    TooLong,
    /// It isn't UTF-8.
    NotUtf8,
}

/// What is printed where an argument isn't UTF-8, in the form of `clap`'s texts.
const NOT_TEXT: &[u8] = b"error: an argument isn't UTF-8\n\nFor more information, try '--help'.\n";

/// The same where `--in-use` is given without `--device`.
const IN_USE_ALONE: &[u8] =
    b"error: the argument '--in-use' needs '--device'\n\nFor more information, try '--help'.\n";

/// The same where `--json` and `--human` are given.
const TWO_FORMS: &[u8] =
    b"error: the argument '--json' cannot be used with '--human'\n\nFor more information, try '--help'.\n";

/// The same where `--plan` and `--data` are given.
const PLAN_WITH_DATA: &[u8] =
    b"error: the argument '--data' cannot be used with '--plan'\n\nFor more information, try '--help'.\n";

impl Failure {
    /// That of an output stream that failed.
    pub fn of_output(error: &io::Error) -> Failure
        ensures { result ≡ output_failure (error_kind error.now) }
    {
        match error.kind() {
            ErrorKind::BrokenPipe => Failure::ClosedPipe,
            _ => Failure::Device,
        }
    }

    /// The status that goes with it.
    pub fn status(&self) -> Status
        ensures { result ≡ failure_status self.now }
    {
        match self {
            Failure::NotText
            | Failure::Usage(_)
            | Failure::InUseAlone
            | Failure::TwoForms
            | Failure::PlanWithData
            | Failure::BadWord(_)
            | Failure::BadFresh
            | Failure::BadData(_)
            | Failure::BadPath
            | Failure::BadNumber
            | Failure::BadCopy => Status::Usage,
            Failure::Edit(_)
            | Failure::Plan(_)
            | Failure::Check(_)
            | Failure::Repair(_)
            | Failure::PlanText(_)
            | Failure::Table(_)
            | Failure::Unfit(_, _)
            | Failure::OtherSize => Status::Refused,
            Failure::NoText(_, why) => status_of_text(*why),
            Failure::NoTable(why) | Failure::Other(why) => status_of(*why),
            Failure::NoSide(_, why) => status_of_side(*why),
            Failure::Opening(why) | Failure::OtherOpening(why) => opening_status(why),
            Failure::Fault(_) | Failure::Differs(_) | Failure::Device | Failure::ClosedPipe =>
                Status::Device,
            Failure::Memory => Status::Memory,
        }
    }

    /// Prints its line, and gives the status with which the command ends: where the line can't be printed, a device's fault.
    pub fn tell<E: Write>(&self, err: &mut E) -> Status
        ensures { IsTold self.now (E.contents err.old) (E.contents err.new) result }
    {
        match self.print(err) {
            Ok(()) => self.status(),
            Err(_) => Status::Device,
        }
    }

    /// Prints its line: after an Ok a writer that knows its bytes has it behind those that it had. Of the text of `clap`'s error
    /// nothing is said here.
    pub fn print<E: Write>(&self, err: &mut E) -> io::Result<()>
        ensures { OnOk result (IfSome (failure_text self.now) (Appends (E.contents err.old) (E.contents err.new))) }
    {
        match self {
            Failure::NotText => err.write_all(NOT_TEXT),
            Failure::Usage(error) => write!(err, "{error}"),
            Failure::InUseAlone => err.write_all(IN_USE_ALONE),
            Failure::TwoForms => err.write_all(TWO_FORMS),
            Failure::PlanWithData => err.write_all(PLAN_WITH_DATA),
            Failure::BadWord(word) => writeln!(err, "bad word {word}"),
            Failure::BadFresh => err.write_all(b"bad fresh\n"),
            Failure::BadData(line) => writeln!(err, "bad data {line}"),
            Failure::BadPath => err.write_all(b"bad path\n"),
            Failure::BadNumber => err.write_all(b"bad number\n"),
            Failure::BadCopy => err.write_all(b"bad copy\n"),
            Failure::Edit(why) => print_refusal(err, "edit", u64::from(why.number())),
            Failure::Plan(why) => print_refusal(err, "plan", u64::from(why.number())),
            Failure::Check(why) => print_refusal(err, "check", u64::from(why.number())),
            Failure::Repair(why) => print_refusal(err, "repair", u64::from(why.number())),
            Failure::PlanText(line) => print_refusal(err, "plan text", *line),
            Failure::Table(fault) => print_fault(err, *fault),
            Failure::NoText(of, why) => print_no_text(err, *of, *why),
            Failure::Unfit(at, why) => print_unfit(err, *at, *why),
            Failure::OtherSize => err.write_all(b"refused: other size\n"),
            Failure::OtherOpening(why) => print_other_opening(err, why),
            Failure::Other(why) => print_other(err, *why),
            Failure::NoTable(why) => print_no_table(err, *why),
            Failure::NoSide(side, why) => print_no_side(err, *side, *why),
            Failure::Opening(why) => print_opening(err, why),
            Failure::Fault(_) | Failure::Differs(_) | Failure::Device => err.write_all(b"device\n"),
            Failure::ClosedPipe => Ok(()),
            Failure::Memory => err.write_all(b"memory\n"),
        }
    }
}

// The status that goes with an image without a table.
fn status_of(why: NoTable) -> Status
    ensures { result ≡ reason_status why }
{
    match why {
        NoTable::Device(_) => Status::Device,
        NoTable::Memory => Status::Memory,
        _ => Status::NoTable,
    }
}

// The status that goes with a copy that gives no table.
fn status_of_side(why: SideError) -> Status
    ensures { result ≡ side_status why }
{
    match why {
        SideError::Device(_) => Status::Device,
        SideError::Memory => Status::Memory,
        _ => Status::NoTable,
    }
}

// The status that goes with a text that isn't read.
fn status_of_text(why: NoText) -> Status
    ensures { result ≡ text_status why }
{
    match why {
        NoText::Unreadable => Status::Device,
        NoText::TooLong | NoText::NotUtf8 => Status::Usage,
    }
}

// The status that goes with an image that isn't opened.
fn opening_status(why: &NoDevice) -> Status
    ensures { result ≡ status_of_opening why.now }
{
    match why {
        NoDevice::Unopened | NoDevice::NotBlock => Status::Device,
        NoDevice::SectorSize(_) => Status::Usage,
        NoDevice::Locked | NoDevice::InUse(_) => Status::Refused,
        NoDevice::Memory => Status::Memory,
    }
}

fn print_opening<E: Write>(err: &mut E, why: &NoDevice) -> io::Result<()>
    ensures { OnOk result (Appends (E.contents err.old) (E.contents err.new) (opening_text why.now)) }
{
    match why {
        NoDevice::Unopened => err.write_all(b"device\n"),
        NoDevice::NotBlock => err.write_all(b"device: not a block device\n"),
        NoDevice::SectorSize(bytes) => writeln!(err, "bad sector size: the device has {bytes}"),
        NoDevice::Locked => err.write_all(b"refused: locked\n"),
        NoDevice::InUse(by) => writeln!(err, "refused: in use: {by}"),
        NoDevice::Memory => err.write_all(b"memory\n"),
    }
}

// Why the image whose table is to be taken isn't opened.
fn print_other_opening<E: Write>(err: &mut E, why: &NoDevice) -> io::Result<()>
    ensures { OnOk result (Appends (E.contents err.old) (E.contents err.new) (codes "other: " ++ opening_text why.now)) }
{
    err.write_all(b"other: ")?;
    print_opening(err, why)
}

// Why the image whose table is to be taken has none.
fn print_other<E: Write>(err: &mut E, why: NoTable) -> io::Result<()>
    ensures { OnOk result (Appends (E.contents err.old) (E.contents err.new) (codes "other: " ++ no_table_text why)) }
{
    err.write_all(b"other: ")?;
    print_no_table(err, why)
}

// The first fault of a table's text: its name there, and which object of `partitions` has it.
fn print_fault<E: Write>(err: &mut E, fault: TextFault) -> io::Result<()>
    ensures { OnOk result (Appends (E.contents err.old) (E.contents err.new) (fault_line fault)) }
{
    match fault.part {
        Some(part) => print_fault_in(err, fault.key, part),
        None => writeln!(err, "refused: table {}", fault.key),
    }
}

// That of an object of `partitions`.
fn print_fault_in<E: Write>(err: &mut E, key: Key, part: u64) -> io::Result<()>
    ensures { OnOk result (Appends (E.contents err.old) (E.contents err.new) (fault_line_of (key_text key) (Some part))) }
{
    writeln!(err, "refused: table {key} {part}")
}

// Why a text isn't read.
fn print_no_text<E: Write>(err: &mut E, of: TextOf, why: NoText) -> io::Result<()>
    ensures { OnOk result (Appends (E.contents err.old) (E.contents err.new) (no_text_line of why)) }
{
    match of {
        TextOf::Table => err.write_all(match why {
            NoText::Unreadable => b"table: device\n".as_slice(),
            NoText::TooLong => b"table: too long\n".as_slice(),
            NoText::NotUtf8 => b"table: not text\n".as_slice(),
        }),
        TextOf::Data => err.write_all(match why {
            NoText::Unreadable => b"data: device\n".as_slice(),
            NoText::TooLong => b"data: too long\n".as_slice(),
            NoText::NotUtf8 => b"data: not text\n".as_slice(),
        }),
    }
}

fn word_of(why: Unfit) -> &'static str
    ensures { result.now ≡ word_of_reason why }
{
    match why {
        Unfit::Outside => "outside",
        Unfit::Owned => "owned",
        Unfit::Table => "table",
        Unfit::NewTable => "new-table",
        Unfit::Read => "read",
    }
}

// Why a sector isn't carried over.
fn print_unfit<E: Write>(err: &mut E, at: Lba, why: Unfit) -> io::Result<()>
    ensures { OnOk result (Appends (E.contents err.old) (E.contents err.new) (unfit_line at.0 why)) }
{
    writeln!(err, "refused: data {} {}", word_of(why), at.0)
}

// What refused it, and the number by which it says why.
fn print_refusal<E: Write>(err: &mut E, by: &str, number: u64) -> io::Result<()>
    ensures { OnOk result (Appends (E.contents err.old) (E.contents err.new) (refusal_line by.now number)) }
{
    writeln!(err, "refused: {by} {number}")
}
