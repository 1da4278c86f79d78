//! Plans that C gives.

ghost use Rattle.std.specs.Prelude.{◌≡◌, IfOk, IfErr, IsTrue, IsFalse};
ghost use Rattle.pt_sector.specs.Sectors.{IsSectorSize};
ghost use Rattle.pt_apply.specs.Plans.{phases_of};
ghost use Rattle.pt_apply.specs.inner.Plans.{phases_in};
ghost use Rattle.pt_replay.specs.Given.{rows_from, sectors_of, AreFull, AreTaken};
ghost use Rattle.pt_replay.specs.inner.Given.{phases_read, IsNumbered, IsMisplaced, Took};
ghost use Rattle.pt_replay.specs.inner.Wanted.{IsUnasked, NoRows};
ghost use Rattle.pt_replay.specs.Replies.{answer, bad_row};
ghost use Rattle.pt_replay.specs.declared.answers.Status.TheVariants as status;

use crate::answers::{About, Answer, Status};
use crate::rows::WriteRow;
use pt_apply::{Plan, Write};
use pt_sector::Lba;
use std::alloc::{AllocError, Global};
use std::mem;

// What was read so far: the phases before the last one, the writes of the last one, and its number.
#[derive(Drop)]
struct Partial<const B: usize> {
    phases: Vec<Vec<Write<B>>>,
    last: Vec<Write<B>>,
    number: u64,
}

// Adds a write, and says whether it may come there: in the last phase, or in the next one.
fn add_write<const B: usize>(
    alloc: Global,
    partial: &mut Partial<B>,
    row: &WriteRow,
    bytes: &[u8; B],
) -> Result<bool, AllocError>
    requires size { IsSectorSize B }
    requires numbered { IsNumbered partial.old }
    ensures good { IfOk result (λ good. IsTrue good → Took row.now bytes.now partial.old partial.new) }
    ensures bad { IfOk result (λ good. IsFalse good → IsMisplaced row.now partial.old) }
{
    let write = Write {
        lba: Lba(row.sector),
        bytes: *bytes,
    };
    if row.phase == partial.number {
        partial.last.push(write)?;
        return Ok(true);
    }
    if row.phase < partial.number || row.phase - partial.number != 1 || partial.last.is_empty() {
        return Ok(false);
    }
    let mut next = Vec::new(alloc);
    next.push(write)?;
    let last = mem::replace(&mut partial.last, next);
    partial.phases.push(last)?;
    partial.number = row.phase;
    Ok(true)
}

// The plan that was read.
fn finish<const B: usize>(partial: Partial<B>) -> Result<Plan<B>, AllocError>
    ensures rows { IfOk result (λ plan. rows_from 1 (phases_of plan) ≡ rows_from 1 (phases_read partial.entry)) }
    ensures full { IfOk result (λ plan. AreFull (phases_in partial.entry.phases.items) → AreFull (phases_of plan)) }
    ensures sectors { IfOk result (λ plan. sectors_of (phases_of plan) ≡ sectors_of (phases_read partial.entry)) }
{
    let Partial {
        mut phases,
        last,
        number: _,
    } = partial;
    if last.len() == 0 {
        return Ok(Plan { phases });
    }
    phases.push(last)?;
    Ok(Plan { phases })
}

// The row of this number, from 1 on, has no place in a plan.
fn misplaced(row: u64) -> Answer
    ensures told { result ≡ answer status.Usage (bad_row row) }
{
    Answer::told(Status::Usage, About::Argument, 6).with(row, 0)
}

/// The plan whose writes C lists by phases, which are numbered from 1 on.
pub fn plan_of_rows<const B: usize>(
    alloc: Global,
    writes: &[WriteRow],
    bytes: &[u8],
) -> Result<Plan<B>, Answer>
    requires size { IsSectorSize B }
    ensures ok { IfOk result (λ plan. AreTaken B (phases_of plan) writes.now bytes.now) }
    ensures err { IfErr result (λ a. IsUnasked (NoRows B writes.now bytes.now) a.status a.reply) }
{
    let (sectors, rest) = bytes.as_chunks::<B>();
    if !rest.is_empty() || sectors.len() != writes.len() {
        return Err(Answer::bad_argument(6));
    }
    let mut partial = Partial {
        phases: Vec::new(alloc),
        last: Vec::new(alloc),
        number: 1,
    };
    for k in 0..writes.len() {
        match add_write(alloc, &mut partial, &writes[k], &sectors[k]) {
            Ok(true) => {}
            Ok(false) => return Err(misplaced(k as u64 + 1)),
            Err(_) => return Err(Answer::of(Status::Memory)),
        }
    }
    match finish(partial) {
        Ok(plan) => Ok(plan),
        Err(_) => Err(Answer::of(Status::Memory)),
    }
}
