//! Plans, in the caller's buffers.

ghost use Rattle.std.specs.Prelude.{◌≡◌, ◌≤◌, ◌++◌, length, take, drop, IfOk, OnOk};
ghost use Rattle.pt_sector.specs.Sectors.{IsSectorSize};
ghost use Rattle.pt_apply.specs.Plans.{writes_of, phases_of};
ghost use Rattle.pt_replay.specs.Given.{rows_in, bytes_in, buffers};
ghost use Rattle.pt_replay.specs.inner.Given.{AreRows, Gives};
ghost use Rattle.pt_replay.specs.inner.Tables.{GivesAll};
ghost use Rattle.pt_replay.specs.Replies.{answer, counting};

use crate::answers::{Answer, Status};
use crate::rows::WriteRow;
use pt_apply::{Plan, Write};
use std::alloc::{AllocError, Global};

/// The writes of a plan, in order.
#[derive(Drop)]
struct Listed {
    rows: Vec<WriteRow>,
    bytes: Vec<u8>,
}

// Adds the writes of a phase.
fn add_phase<const B: usize>(
    listed: &mut Listed,
    phase: u64,
    writes: &[Write<B>],
) -> Result<(), AllocError>
    ensures rows { OnOk result (listed.new.rows.items ≡ listed.old.rows.items ++ rows_in phase (writes_of writes.now)) }
    ensures bytes { OnOk result (listed.new.bytes.items ≡ listed.old.bytes.items ++ bytes_in (writes_of writes.now)) }
{
    for write in writes {
        let row = WriteRow {
            sector: write.lba.0,
            phase,
        };
        listed.rows.push(row)?;
        listed.bytes.extend_from_slice(&write.bytes)?;
    }
    Ok(())
}

// Lists the writes of a plan.
fn list<const B: usize>(alloc: Global, plan: &Plan<B>) -> Result<Listed, AllocError>
    requires size { IsSectorSize B }
    ensures { IfOk result (λ listed. AreRows (phases_of plan.now) listed.rows.items listed.bytes.items) }
{
    let mut listed = Listed {
        rows: Vec::new(alloc),
        bytes: Vec::new(alloc),
    };
    for k in 0..plan.phases.len() {
        add_phase(&mut listed, k as u64 + 1, plan.phases[k].as_slice())?;
    }
    Ok(listed)
}

/// Puts items at the head of a buffer.
pub fn put<T: Copy>(into: &mut [T], items: &[T])
    requires { length items.now ≤ length into.old }
    ensures head { take (length items.now) into.new ≡ items.now }
    ensures rest { drop (length items.now) into.new ≡ drop (length items.now) into.old }
{
    into[..items.len()].copy_from_slice(items);
}

/// A status with counts of rows or writes, and of phases.
pub fn counted(status: Status, count: usize, phases: usize) -> Answer
    ensures told { result ≡ answer status (counting count phases) }
{
    let mut answer = Answer::of(status);
    answer.reply.count = count as u64;
    answer.reply.phases = phases as u64;
    answer
}

/// Puts a list into the caller's buffer, or says how much room it takes.
pub fn put_list<T: Copy>(list: &[T], into: &mut [T]) -> Answer
    ensures says { GivesAll list.now into.old into.new result.status result.reply }
{
    if list.len() > into.len() {
        return counted(Status::Room, list.len(), 0);
    }
    put(into, list);
    counted(Status::Done, list.len(), 0)
}

/// Puts the writes of a plan into the caller's buffers, or says how much room they take.
pub fn put_plan<const B: usize>(
    alloc: Global,
    plan: &Plan<B>,
    writes: &mut [WriteRow],
    bytes: &mut [u8],
) -> Answer
    requires size { IsSectorSize B }
    ensures says { Gives (phases_of plan.now) (buffers writes.old bytes.old) (buffers writes.new bytes.new) result.status result.reply }
{
    let listed = match list(alloc, plan) {
        Ok(listed) => listed,
        Err(_) => return Answer::of(Status::Memory),
    };
    if listed.rows.len() > writes.len() || listed.bytes.len() > bytes.len() {
        return counted(Status::Room, listed.rows.len(), plan.phases.len());
    }
    put(writes, listed.rows.as_slice());
    put(bytes, listed.bytes.as_slice());
    counted(Status::Done, listed.rows.len(), plan.phases.len())
}
