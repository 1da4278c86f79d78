//! How a call ends: its status, and what goes with it.

ghost use Rattle.std.specs.Prelude.{◌≡◌, pos, negsuc};
ghost use Rattle.pt_replay.specs.Replies.{status_code, about_code, nothing, told, answer, wanting, of_other, bad_argument};
ghost use Rattle.pt_replay.specs.Replies.{failure_answer, letter_code};
ghost use Rattle.pt_replay.specs.declared.answers.Status.TheVariants as status;
ghost use Rattle.pt_report.specs.Statuses.{status_code as code_of_exit};

use pt_layout::Path;
use pt_report::Status as ExitStatus;
use pt_sector::{Failure, Lba};

/// How a call ends. The first seven are the exit statuses of the command.
#[derive(Clone, Copy)]
pub enum Status {
    /// Done, or yes.
    Done,
    /// The answer is no.
    No,
    /// An argument or a word that can't be read.
    Usage,
    /// An edit, a repair or a plan was refused.
    Refused,
    /// The disk denotes nothing.
    NoTable,
    /// The device failed. No call has a device; a caller uses it for its own.
    Device,
    /// Memory was refused.
    Memory,
    /// A sector is wanted.
    Want,
    /// The caller's buffers are too small.
    Room,
    /// A sector of the other disk is wanted.
    WantOther,
}

impl Status {
    /// What C gets.
    pub fn code(self) -> i32
        ensures { result ≡ status_code self }
    {
        match self {
            Status::Done => exit_code(ExitStatus::Done),
            Status::No => exit_code(ExitStatus::No),
            Status::Usage => exit_code(ExitStatus::Usage),
            Status::Refused => exit_code(ExitStatus::Refused),
            Status::NoTable => exit_code(ExitStatus::NoTable),
            Status::Device => exit_code(ExitStatus::Device),
            Status::Memory => exit_code(ExitStatus::Memory),
            Status::Want => -1,
            Status::Room => -2,
            Status::WantOther => -3,
        }
    }
}

fn exit_code(status: ExitStatus) -> i32
    ensures { result ≡ pos (code_of_exit status) }
{
    i32::from(status.code())
}

/// What the number of a reply is of.
#[derive(Clone, Copy)]
pub enum About {
    Nothing,
    /// An argument: 1 the sector's size, 2 the view, 3 the path, 4 the random bytes, 5 no words or words that are not
    /// UTF-8, 6 the writes of a plan, 7 the sector's size of the other view, 8 the other view, 9 a text that
    /// isn't UTF-8.
    Argument,
    /// An edit word that can't be read: the number is of the fault, `a` the word, from 1.
    Word,
    /// Why there is no table: 1 copies, 2 chain, 3 two extended, 4 too small.
    Table,
    /// A finding, as `ptab verify` numbers it.
    Finding,
    /// A refusal of an edit.
    Edit,
    /// A refusal of the planner.
    Plan,
    /// A reason of the checker.
    Check,
    /// A refusal of a repair.
    Repair,
    /// A refusal of the other disk: 1 it has another number of sectors.
    Adopt,
    /// Why the other disk has no table, numbered as in `Table`.
    OtherTable,
    /// The first fault of a table's text: the number is of the key, `a` the object of `partitions`, from 1, or 0.
    Text,
}

impl About {
    fn code(self) -> u32
        ensures { result ≡ about_code self }
    {
        match self {
            About::Nothing => 0,
            About::Argument => 1,
            About::Word => 2,
            About::Table => 3,
            About::Finding => 4,
            About::Edit => 5,
            About::Plan => 6,
            About::Check => 7,
            About::Repair => 8,
            About::Adopt => 9,
            About::OtherTable => 10,
            About::Text => 11,
        }
    }
}

/// What a caller gets beside the status.
#[repr(C)]
#[derive(Clone, Copy)]
pub struct Reply {
    /// The sector that is wanted, or the one that was located.
    pub sector: u64,
    /// How many rows or writes there are, also where there is no room for them.
    pub count: u64,
    /// How many phases a plan has.
    pub phases: u64,
    /// The arguments of the number.
    pub a: u64,
    pub b: u64,
    pub about: u32,
    pub number: u32,
    /// The letters of paths in `a` and `b`, or 0.
    pub a_letter: u8,
    pub b_letter: u8,
}

/// A status with its reply.
#[derive(Clone, Copy)]
pub struct Answer {
    pub status: Status,
    pub reply: Reply,
}

/// The letter of a label's entry, from 0 on; 0 for none.
pub fn letter_of(index: Option<u8>) -> u8
    ensures { result ≡ letter_code index }
{
    match index {
        Some(index) => b'a'.wrapping_add(index),
        None => 0,
    }
}

impl Answer {
    /// A status alone.
    pub fn of(status: Status) -> Answer
        ensures { result ≡ record { status = status; reply = nothing } }
    {
        Answer {
            status,
            reply: Reply {
                sector: 0,
                count: 0,
                phases: 0,
                a: 0,
                b: 0,
                about: 0,
                number: 0,
                a_letter: 0,
                b_letter: 0,
            },
        }
    }

    /// A status with a number of what it is about.
    pub fn told(status: Status, about: About, number: u8) -> Answer
        ensures { result ≡ told status about number 0 0 }
    {
        let mut answer = Answer::of(status);
        answer.reply.about = about.code();
        answer.reply.number = u32::from(number);
        answer
    }

    /// The sector that is wanted.
    pub fn want(at: Lba) -> Answer
        ensures { result ≡ wanting at }
    {
        let mut answer = Answer::of(Status::Want);
        answer.reply.sector = at.0;
        answer
    }

    /// Why a call that read has no answer.
    pub fn failed(failure: Failure) -> Answer
        ensures { result ≡ failure_answer failure }
    {
        match failure {
            Failure::Device(at) => Answer::want(at),
            Failure::Memory => Answer::of(Status::Memory),
        }
    }

    /// An argument that has no meaning.
    pub fn bad_argument(number: u8) -> Answer
        ensures told { result ≡ answer status.Usage (bad_argument number) }
    {
        Answer::told(Status::Usage, About::Argument, number)
    }

    /// The same with the arguments of its number.
    pub fn with(self, a: u64, b: u64) -> Answer
        ensures { result ≡ record self { reply = record self.reply { a = a; b = b } } }
    {
        let mut answer = self;
        answer.reply.a = a;
        answer.reply.b = b;
        answer
    }

    /// The same with a path for the first argument.
    pub fn with_path(self, path: &Path) -> Answer
        ensures { result ≡ record self { reply = record self.reply { a = path.now.number; a_letter = letter_code path.now.letter } } }
    {
        let mut answer = self;
        answer.reply.a = path.number;
        answer.reply.a_letter = letter_of(path.letter);
        answer
    }

    /// The same with a path for the second argument.
    pub fn with_second(self, path: &Path) -> Answer
        ensures { result ≡ record self { reply = record self.reply { b = path.now.number; b_letter = letter_code path.now.letter } } }
    {
        let mut answer = self;
        answer.reply.b = path.number;
        answer.reply.b_letter = letter_of(path.letter);
        answer
    }

    /// The same, reported of the other disk.
    pub fn of_other(self) -> Answer
        ensures { result ≡ of_other self }
    {
        let mut answer = self;
        match self.status {
            Status::NoTable => answer.reply.about = About::OtherTable.code(),
            Status::Want => answer.status = Status::WantOther,
            Status::Done
            | Status::No
            | Status::Usage
            | Status::Refused
            | Status::Device
            | Status::Memory
            | Status::Room
            | Status::WantOther => {}
        }
        answer
    }

    /// Gives the reply to the caller, and the code of the status.
    pub fn give(self, reply: &mut Reply) -> i32
        ensures code { result ≡ status_code self.status }
        ensures reply { reply.new ≡ self.reply }
        ensures done { result ≡ pos 0 → self.status ≡ status.Done }
        ensures no { result ≡ pos 1 → self.status ≡ status.No }
        ensures refused { result ≡ pos 3 → self.status ≡ status.Refused }
        ensures no_table { result ≡ pos 4 → self.status ≡ status.NoTable }
        ensures want { result ≡ negsuc 0 → self.status ≡ status.Want }
    {
        *reply = self.reply;
        self.status.code()
    }
}
