//! The place of a partition: its first sector, and its end.

ghost use Rattle.std.specs.Prelude.{◌≡◌, ◌≤◌, nat_eq, IfOk, IfErr};
ghost use Rattle.std.specs.List.{list_any};
ghost use Rattle.pt_edit.specs.Space.{area_of, empties_of, led, started_at, started, past_end, ended, Placed, NotPlaced};

use crate::space::block::{block_end, is_in, largest, round_up};
use crate::space::{Lead, Run, Space};
use pt_words::{End, Refusal};

fn has(sectors: &[u64], k: u128) -> bool
    ensures { result ≡ list_any (nat_eq k) sectors.now }
{
    sectors.iter().any(|sector| k == u128::from(*sector))
}

// Sectors from a partition's first one on, where the one before it may hold what has to stand there.
fn led(space: &Space, part: Run) -> Result<Run, Refusal>
    ensures { result ≡ led (area_of space.now) (empties_of space.now.lead) part }
{
    match &space.lead {
        Lead::None => Ok(part),
        Lead::Record(empties) => {
            if part.first <= space.low {
                return Err(Refusal::OutsideUsable);
            }
            let before = part.first - 1;
            if is_in(&space.taken, before) && !has(empties, before) {
                return Err(Refusal::Overlap);
            }
            Ok(part)
        }
    }
}

// The sectors from one on, to the end of the block that has it.
fn start_at(space: &Space, first: u128) -> Result<Run, Refusal>
    ensures { result ≡ started_at (area_of space.now) first }
{
    if first < space.low || first > space.high {
        return Err(Refusal::OutsideUsable);
    }
    if is_in(&space.taken, first) {
        return Err(Refusal::Overlap);
    }
    let last = block_end(space, first);
    led(space, Run { first, last })
}

// A partition's first sector, and the sectors of its block from there on.
#[tactic(auto, unfolding(crate::specs::Space::started))]
fn find_start(space: &mut Space, alignment: u64, start: u64) -> Result<Run, Refusal>
    ensures { result ≡ started (area_of space.old) alignment start }
{
    if start == 0 {
        return largest(space, alignment).ok_or(Refusal::NoSpace);
    }
    match round_up(alignment, u128::from(start)) {
        Some(first) => start_at(space, first),
        None => Err(Refusal::OutsideUsable),
    }
}

// The partition from the first sector of a part on.
fn end_in(part: Run, high: u128, end: End) -> Result<Run, Refusal>
    requires { part.first ≤ part.last }
    ensures { result ≡ ended high part (past_end part end) }
{
    let first = part.first;
    let last = match end {
        End::Block => part.last,
        End::Length(0) => return Err(Refusal::NoSpace),
        End::Length(k) => match first.checked_add(u128::from(k) - 1) {
            Some(last) => last,
            None => return Err(Refusal::OutsideUsable),
        },
        End::At(e) => u128::from(e),
    };
    if last < first {
        Err(Refusal::NoSpace)
    } else if last > high {
        Err(Refusal::OutsideUsable)
    } else if last > part.last {
        Err(Refusal::Overlap)
    } else {
        Ok(Run { first, last })
    }
}

/// Places a partition, at multiples of an alignment; 0 aligns as 1 does. It takes no memory.
///
/// `start` 0 asks for the block with the most sectors; another is rounded up to the alignment. The end isn't rounded.
/// Of the start, and then of the end:
///
/// - `NoSpace`: no block has a sector to start at; the end is below the start;
/// - `OutsideUsable`: the start, the record in front of it or the end isn't usable;
/// - `Overlap`: the start is taken; the sector before it is, and holds no empty record; the end is past the block.
#[tactic(auto, unfolding(crate::specs::Space::placed))]
pub fn place(space: Space, alignment: u64, start: u64, end: End) -> Result<Run, Refusal>
    ensures ok { IfOk result (λ run. Placed (area_of space) alignment start end run) }
    ensures err { IfErr result (λ refusal. NotPlaced (area_of space) alignment start end refusal) }
{
    let mut space = space;
    let high = space.high;
    let part = find_start(&mut space, alignment, start)?;
    end_in(part, high, end)
}
