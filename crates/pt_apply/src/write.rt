//! The text of a plan.

ghost use Rattle.std.specs.Prelude.{◌≡◌, ◌++◌, ◌<◌, All, length, IfOk, OnOk};
ghost use Rattle.std.specs.String.{string_bytes};
ghost use Rattle.pt_sector.specs.Sectors.{IsSectorSize};
ghost use Rattle.pt_apply.specs.Plans.{writes_of, phases_of};
ghost use Rattle.pt_apply.specs.inner.PlanTexts.{HasLine};
ghost use Rattle.pt_apply.specs.PlanTexts.{write_text, phase_text, text_of, PlanText};

use crate::plan::{Plan, Write};
use std::alloc::{AllocError, Global};

// One line.
fn push_line(alloc: Global, text: &mut String, lba: u64, bytes: &[u8]) -> Result<(), AllocError>
    ensures text { OnOk result (string_bytes text.new ≡ string_bytes text.old ++ write_text (lba, bytes.now)) }
    ensures held { HasLine (length bytes.now) (lba, bytes.now) }
{
    let digits = hex::encode(alloc, bytes)?;
    let line = format!(in alloc; "W {lba} {digits}\n")?;
    text.push_str(&line)
}

// The line of a sector's write.
fn push_write<const B: usize>(
    alloc: Global,
    text: &mut String,
    lba: u64,
    bytes: &[u8; B],
) -> Result<(), AllocError>
    ensures text { OnOk result (string_bytes text.new ≡ string_bytes text.old ++ write_text (lba, bytes.now)) }
    ensures held { HasLine B (lba, bytes.now) }
{
    push_line(alloc, text, lba, bytes.as_slice())
}

// The lines of a phase: its writes, and its flush.
fn push_phase<const B: usize>(
    alloc: Global,
    text: &mut String,
    phase: &[Write<B>],
) -> Result<(), AllocError>
    ensures text { OnOk result (string_bytes text.new ≡ string_bytes text.old ++ phase_text (writes_of phase.now)) }
    ensures held { OnOk result (All (HasLine B) (writes_of phase.now)) }
{
    for write in phase {
        push_write(alloc, text, write.lba.0, &write.bytes)?;
    }
    text.push_str("F\n")
}

/// The text of a plan, with its digits in lower case: one plan has one such text. Each phase has a write, as in each plan
/// of the planner and in each that was read from a text: an empty phase has no text.
pub fn plan_text<const B: usize>(alloc: Global, plan: &Plan<B>) -> Result<String, AllocError>
    requires size { IsSectorSize B }
    requires phases { All (λ p. 0 < length p.items) plan.now.phases.items }
    ensures ok { IfOk result (λ t. PlanText B (phases_of plan.now) (string_bytes t)) }
    ensures lower { IfOk result (λ t. string_bytes t ≡ text_of (phases_of plan.now)) }
{
    let mut text = String::new(alloc);
    for phase in &plan.phases {
        push_phase(alloc, &mut text, phase)?;
    }
    Ok(text)
}
