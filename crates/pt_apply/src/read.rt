//! The plan of a text.

ghost use Rattle.std.specs.Prelude.{◌≡◌, ◌≢◌, ◌<◌, ◌++◌, ◌∷◌, [], ℕ, List, All, length, IfOk, IfErr, IfSome, IfNone, Ok};
ghost use Rattle.hex.specs.Hex.{decode_sized};
ghost use Rattle.pt_sector.specs.Sectors.{IsSectorSize};
ghost use Rattle.pt_apply.specs.Plans.{phases_of};
ghost use Rattle.pt_apply.specs.PlanTexts.{LineItem, IsLine, IsWriteLine, PlanText, TextRefused};
ghost use Rattle.pt_apply.specs.inner.PlanTexts.{Lacks, step_of, TakesLine};

use crate::digits::decode_digits;
use crate::error::PlanTextError;
use crate::plan::{Plan, Write};
use pt_path::parse_number;
use pt_sector::{Lba, Sector};
use std::alloc::{AllocError, Global};
use std::mem;

// What a line stands for.
#[derive(Clone, Copy)]
enum Line<const B: usize> {
    Write(Write<B>),
    Flush,
}

// What was read so far: the phases that were flushed, and the writes since.
#[derive(Drop)]
struct Partial<const B: usize> {
    phases: Vec<Vec<Write<B>>>,
    last: Vec<Write<B>>,
}

// The bytes of a sector from their digits.
fn read_bytes<const B: usize>(digits: &str) -> Option<Sector<B>>
    requires { IsSectorSize B }
    ensures some { IfSome result (λ bytes. decode_sized digits.now B ≡ Ok bytes) }
    ensures none { IfNone result ((bytes : List ℕ) → decode_sized digits.now B ≢ Ok bytes) }
{
    let mut bytes = [0; B];
    if decode_digits(digits.as_bytes(), &mut bytes) {
        Some(bytes)
    } else {
        None
    }
}

// The texts of the sector's number and of its bytes in the line of a write.
fn fields(line: &str) -> Option<(&str, &str)>
    ensures some { IfSome result (λ r. (line.now ≡ 87 ∷ 32 ∷ (r.0.now ++ 32 ∷ r.1.now)) × Lacks 32 r.0.now) }
    ensures none { IfNone result ((number digits : List ℕ) → Lacks 32 number → line.now ≢ 87 ∷ 32 ∷ (number ++ 32 ∷ digits)) }
{
    let (letter, rest) = line.split_once(' ')?;
    if letter == "W" {
        rest.split_once(' ')
    } else {
        None
    }
}

// The write of a line.
fn read_write<const B: usize>(line: &str) -> Option<Write<B>>
    requires { IsSectorSize B }
    ensures some { IfSome result (λ w. IsWriteLine B line.now (w.lba.0, w.bytes)) }
    ensures none { IfNone result ((w : ℕ × List ℕ) → ¬ IsWriteLine B line.now w) }
{
    let (number, digits) = fields(line)?;
    let number = parse_number(number)?;
    let bytes = read_bytes(digits)?;
    Some(Write {
        lba: Lba(number),
        bytes,
    })
}

// What a line stands for.
fn read_line<const B: usize>(line: &str) -> Option<Line<B>>
    requires { IsSectorSize B }
    ensures some { IfSome result (λ l. IsLine B line.now (step_of l)) }
    ensures none { IfNone result ((s : LineItem) → ¬ IsLine B line.now s) }
{
    if line == "F" {
        return Some(Line::Flush);
    }
    Some(Line::Write(read_write(line)?))
}

// Adds a line, and says whether it may come there.
fn take_line<const B: usize>(
    alloc: Global,
    partial: &mut Partial<B>,
    line: &str,
) -> Result<bool, AllocError>
    requires { IsSectorSize B }
    ensures { IfOk result (TakesLine B line.now partial.old partial.new) }
{
    match read_line(line) {
        Some(Line::Write(write)) => partial.last.push(write)?,
        Some(Line::Flush) => {
            if partial.last.is_empty() {
                return Ok(false);
            }
            let last = mem::replace(&mut partial.last, Vec::new(alloc));
            partial.phases.push(last)?;
        }
        None => return Ok(false),
    }
    Ok(true)
}

/// The plan that a text is, or the first line that is bad. The digits of the bytes may be in either case.
pub fn read_plan<const B: usize>(alloc: Global, text: &str) -> Result<Plan<B>, PlanTextError>
    requires size { IsSectorSize B }
    ensures ok { IfOk result (λ plan. PlanText B (phases_of plan) text.now) }
    ensures phases { IfOk result (λ plan. All (λ p. 0 < length p.items) plan.phases.items) }
    ensures err { IfErr result (TextRefused B text.now) }
{
    let mut partial = Partial {
        phases: Vec::new(alloc),
        last: Vec::new(alloc),
    };
    let mut rest = text;
    let mut number = 1;
    while let Some((line, after)) = rest.split_once('\n') {
        if !take_line(alloc, &mut partial, line)? {
            return Err(PlanTextError::BadLine(number));
        }
        number += 1;
        rest = after;
    }
    if !rest.is_empty() {
        return Err(PlanTextError::BadLine(number));
    }
    if !partial.last.is_empty() {
        return Err(PlanTextError::NoFinalFlush);
    }
    Ok(Plan {
        phases: partial.phases,
    })
}
