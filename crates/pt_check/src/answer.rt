//! What the checker answers.

ghost use Rattle.std.specs.Prelude.{◌≡◌, Some};
ghost use Rattle.pt_check.specs.Answers.{answer_of, why_number};
ghost use Rattle.pt_check.specs.Sentences.{why_sentence};

use pt_layout::{Finding, Layout};
use pt_sector::Lba;
use std::error::Error;
use std::fmt;

/// Why a plan is refused: the first of these that holds. Phases and writes are counted from 1, writes over the whole
/// plan.
#[derive(Clone, Copy, Debug, PartialEq, Eq)]
pub enum Why {
    /// It has more than 4,096 writes.
    TooManyWrites,
    /// This write is of a sector past the disk's last.
    OutOfRange(u64),
    /// This write is of sector 0, and changes bytes 0 to 439 of what stands there now.
    BootCode(u64),
    /// This phase has several writes, and the first of them that is of a sector which recovery reads on the disk
    /// before the phase is of this one.
    ReadSector(u64, Lba),
    /// After this phase the disk denotes neither the old layout nor the new one; or it denotes the old one again,
    /// after a phase that gave the new one.
    Neither(u64),
    /// A write is of this sector, which neither layout has in its tables.
    NotATable(Lba),
    /// A write is of this sector, which a partition of the old or the new layout owns.
    Owned(Lba),
    /// The disk with the whole plan written isn't healthy: the first finding.
    Final(Finding),
}

impl Why {
    /// The number that stands for it in what is printed, from 1 to 8 in the order of the variants.
    pub fn number(self) -> u8
        ensures { result ≡ why_number self }
    {
        match self {
            Why::TooManyWrites => 1,
            Why::OutOfRange(_) => 2,
            Why::BootCode(_) => 3,
            Why::ReadSector(_, _) => 4,
            Why::Neither(_) => 5,
            Why::NotATable(_) => 6,
            Why::Owned(_) => 7,
            Why::Final(_) => 8,
        }
    }
}

impl fmt::Display for Why {
    ghost output = { λ why. Some (why_sentence why) };

    fn fmt<W: fmt::Write>(&self, f: &mut fmt::Formatter<W>) -> fmt::Result {
        match self {
            Why::TooManyWrites => f.write_str("more than 4096 writes"),
            Why::OutOfRange(write) => write!(f, "write {write} is of a sector past the last"),
            Why::BootCode(write) => {
                write!(
                    f,
                    "write {write} changes boot code, bytes 0 to 439 of sector 0"
                )
            }
            Why::ReadSector(phase, at) => write!(
                f,
                "phase {phase} has several writes, and sector {} is one that decides the layout",
                at.0
            ),
            Why::Neither(phase) => write!(
                f,
                "after phase {phase} the layout is neither the old nor the new one, or the old one again once the new one was there"
            ),
            Why::NotATable(at) => write!(
                f,
                "sector {} is written, and is in the tables of neither layout",
                at.0
            ),
            Why::Owned(at) => write!(
                f,
                "sector {} is written, and a partition of the old or the new layout owns it",
                at.0
            ),
            Why::Final(finding) => write!(f, "the finished disk isn't healthy: {finding}"),
        }
    }
}

impl Error for Why {}

/// The answer to a plan.
#[derive(Clone, Copy, Debug, PartialEq, Eq)]
pub enum Answer {
    No(Why),
    /// It is safe. The switch is the first phase after which the disk denotes the new layout; 0 where that is the
    /// old one.
    Yes { switch: u64 },
}

/// The answer to a plan, and where it leads after a yes.
#[derive(Drop)]
pub enum Outcome {
    No(Why),
    /// It is safe, with this switch. The finished disk denotes this layout.
    Yes { switch: u64, layout: Layout },
}

impl Outcome {
    /// The answer alone.
    pub fn answer(&self) -> Answer
        ensures { result ≡ answer_of self.now }
    {
        match self {
            Outcome::No(why) => Answer::No(*why),
            Outcome::Yes { switch, .. } => Answer::Yes { switch: *switch },
        }
    }
}
