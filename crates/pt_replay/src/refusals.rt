//! Why there is no plan, as reported to C.

ghost use Rattle.std.specs.Prelude.{◌≡◌};
ghost use Rattle.pt_replay.specs.Replies.{why_reply, commit_answer, repair_answer, like_answer};
ghost use Rattle.pt_replay.specs.Replies.{key_number, fault_answer, part_number, set_answer};
ghost use Rattle.pt_plan.specs.declared.error.CommitError.TheVariants as commit;

use crate::answers::{About, Answer, Status};
use crate::recovered::no_table;
use pt_check::Why;
use pt_drafts::{Key, TextFault};
use pt_plan::{CommitError, LikeError, RepairError};
use pt_sector::Fault;
use pt_set::SetError;

/// The reason of the checker, with its arguments as the command prints them.
pub fn reason(status: Status, why: Why) -> Answer
    ensures { result ≡ record { status = status; reply = why_reply why } }
{
    match why {
        Why::TooManyWrites => Answer::told(status, About::Check, 1),
        Why::OutOfRange(write) => Answer::told(status, About::Check, 2).with(write, 0),
        Why::BootCode(write) => Answer::told(status, About::Check, 3).with(write, 0),
        Why::ReadSector(phase, lba) => Answer::told(status, About::Check, 4).with(phase, lba.0),
        Why::Neither(phase) => Answer::told(status, About::Check, 5).with(phase, 0),
        Why::NotATable(lba) => Answer::told(status, About::Check, 6).with(lba.0, 0),
        Why::Owned(lba) => Answer::told(status, About::Check, 7).with(lba.0, 0),
        Why::Final(finding) => {
            Answer::told(status, About::Check, 8).with(u64::from(finding.number()), 0)
        }
    }
}

// A fault of the device: only reads are called.
fn fault(fault: Fault) -> Answer
    ensures { result ≡ commit_answer (commit.Device fault) }
{
    match fault {
        Fault::Read(at) => Answer::want(at),
        Fault::Write(_) | Fault::Flush => Answer::of(Status::Device),
    }
}

/// Why words have no plan.
pub fn refused(error: CommitError) -> Answer
    ensures { result ≡ commit_answer error }
{
    match error {
        CommitError::NoTable(why) => no_table(why),
        CommitError::Edit(why) => Answer::told(Status::Refused, About::Edit, why.number()),
        CommitError::Plan(why) => Answer::told(Status::Refused, About::Plan, why.number()),
        CommitError::Check(why) => reason(Status::Refused, why),
        CommitError::Device(met) => fault(met),
        CommitError::Memory => Answer::of(Status::Memory),
    }
}

/// Why a disk doesn't become like another one.
pub fn unlike(error: LikeError) -> Answer
    ensures { result ≡ like_answer error }
{
    match error {
        LikeError::OtherSize => Answer::told(Status::Refused, About::Adopt, 1),
        LikeError::Other(why) => no_table(why).of_other(),
        LikeError::Disk(error) => refused(error),
    }
}

/// Why a disk isn't repaired.
pub fn unmended(error: RepairError) -> Answer
    ensures { result ≡ repair_answer error }
{
    match error {
        RepairError::NoTable(why) => no_table(why),
        RepairError::Unsound(finding) => {
            Answer::told(Status::Refused, About::Repair, 2).with(u64::from(finding.number()), 0)
        }
        RepairError::Plan(why) => {
            Answer::told(Status::Refused, About::Repair, 5).with(u64::from(why.number()), 0)
        }
        RepairError::Check(why) => reason(Status::Refused, why),
        RepairError::Device(met) => fault(met),
        RepairError::Memory => Answer::of(Status::Memory),
    }
}

// The number of a key, in the order in which a text is described.
fn number_of(key: Key) -> u8
    ensures { result ≡ key_number key }
{
    match key {
        Key::Text => 1,
        Key::Table => 2,
        Key::Unknown => 3,
        Key::Label => 4,
        Key::Device => 5,
        Key::Unit => 6,
        Key::SectorSize => 7,
        Key::Sectors => 8,
        Key::Id => 9,
        Key::FirstLba => 10,
        Key::LastLba => 11,
        Key::Entries => 12,
        Key::TableLength => 13,
        Key::Partitions => 14,
        Key::Chain => 15,
        Key::Number => 16,
        Key::Node => 17,
        Key::Start => 18,
        Key::Size => 19,
        Key::Last => 20,
        Key::Offset => 21,
        Key::Type => 22,
        Key::TypeName => 23,
        Key::Uuid => 24,
        Key::Name => 25,
        Key::NameUnits => 26,
        Key::Attributes => 27,
        Key::Attrs => 28,
        Key::Bootable => 29,
        Key::Boot => 30,
        Key::StartChs => 31,
        Key::EndChs => 32,
        Key::Record => 33,
        Key::Bsd => 34,
    }
}

// The number of an object of `partitions`, from 1 on, or 0.
fn part_of(part: Option<u64>) -> u64
    ensures { result ≡ part_number part }
{
    match part {
        Some(part) => part,
        None => 0,
    }
}

// The first fault of a table's text.
fn at_fault(fault: TextFault) -> Answer
    ensures { result ≡ fault_answer fault }
{
    Answer::told(Status::Refused, About::Text, number_of(fault.key)).with(part_of(fault.part), 0)
}

/// Why a disk doesn't take the table of a text.
pub fn unset(error: SetError) -> Answer
    ensures { result ≡ set_answer error }
{
    match error {
        SetError::Fault(fault) => at_fault(fault),
        SetError::Disk(error) => refused(error),
    }
}
