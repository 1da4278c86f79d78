//! How a call ends, as a number.

ghost use Rattle.std.specs.Prelude.{◌≡◌};
ghost use Rattle.pt_report.specs.Statuses.{reply_status, status_code};

use crate::reply::Reply;

/// How a run of the command ends, as its exit status says. A call of the library for C that is given all its sectors ends with these too.
#[derive(Clone, Copy, Debug, PartialEq, Eq)]
pub enum Status {
    /// Done, or yes.
    Done,
    /// The answer is no.
    No,
    /// Usage, or a word that can't be read.
    Usage,
    /// An edit or a plan was refused.
    Refused,
    /// The image denotes nothing.
    NoTable,
    /// The image can't be opened, read, written or synced, or an output stream failed.
    Device,
    /// Memory was refused.
    Memory,
}

impl Status {
    /// The number that the process ends with.
    pub fn code(self) -> u8
        ensures { result ≡ status_code self }
    {
        match self {
            Status::Done => 0,
            Status::No => 1,
            Status::Usage => 2,
            Status::Refused => 3,
            Status::NoTable => 4,
            Status::Device => 5,
            Status::Memory => 6,
        }
    }

    /// That of an answer.
    pub fn of_reply(reply: &Reply) -> Status
        ensures { result ≡ reply_status reply.now }
    {
        if reply.is_no() {
            Status::No
        } else {
            Status::Done
        }
    }
}
