//! Why a text is no plan's.

ghost use Rattle.std.specs.Prelude.{◌≡◌, Some};
ghost use Rattle.pt_apply.specs.PlanTexts.{error_number};
ghost use Rattle.pt_apply.specs.declared.error.PlanTextError.TheVariants.{Memory};
ghost use Rattle.pt_apply.specs.Sentences.{plan_text_error_sentence};

use std::alloc::AllocError;
use std::error::Error;
use std::fmt;

/// Why a text is no plan's.
#[derive(Clone, Copy, Debug, PartialEq, Eq)]
pub enum PlanTextError {
    /// The first line, counted from 1, that is neither a write nor a flush with a write before it in its phase, or that
    /// no newline ends.
    BadLine(u64),
    /// Each line is good, but the text ends inside a phase.
    NoFinalFlush,
    /// Memory was refused.
    Memory,
}

impl PlanTextError {
    /// The number that stands for it, from 1 to 3 in the order of the variants.
    pub fn number(self) -> u8
        ensures { result ≡ error_number self }
    {
        match self {
            PlanTextError::BadLine(_) => 1,
            PlanTextError::NoFinalFlush => 2,
            PlanTextError::Memory => 3,
        }
    }
}

impl fmt::Display for PlanTextError {
    ghost output = { λ error. Some (plan_text_error_sentence error) };

    fn fmt<W: fmt::Write>(&self, f: &mut fmt::Formatter<W>) -> fmt::Result {
        match self {
            PlanTextError::BadLine(line) => write!(f, "line {line} is not a plan's"),
            PlanTextError::NoFinalFlush => f.write_str(
                "the text ends without the F of its last phase",
            ),
            PlanTextError::Memory => f.write_str("out of memory"),
        }
    }
}

impl Error for PlanTextError {}

impl From<AllocError> for PlanTextError {
    ghost from_gives = { λ _ e. e ≡ Memory };

    fn from(_e: AllocError) -> PlanTextError {
        PlanTextError::Memory
    }
}
