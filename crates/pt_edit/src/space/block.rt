//! Blocks: runs of free sectors with none before or after them.

ghost use Rattle.std.specs.Prelude.{◌≡◌, ◌<◌, ◌≤◌, ◌+◌, IfOk, IfSome, OnOk};
ghost use Rattle.std.specs.List.Sorted.{IsNonDecreasingBy};
ghost use Rattle.pt_edit.specs.Space.{area_of, empties_of, AreBlocks, IsFree, is_in, lead_size, rounded_up, part_of, longer_of, longest};
ghost use Rattle.pt_edit.specs.Space.{blocks_of};
ghost use Rattle.pt_edit.specs.inner.Space.{Fits128, best_past, EndsBlock, with_gap};

use crate::space::{Lead, Run, Space};
use std::alloc::{AllocError, Global};

pub(crate) fn is_in(runs: &[Run], k: u128) -> bool
    ensures { result ≡ is_in runs.now k }
{
    runs.iter().any(|run| run.first <= k && k <= run.last)
}

// The least multiple of an alignment that isn't below a sector; none where it has more than 128 bits.
pub(crate) fn round_up(alignment: u64, k: u128) -> Option<u128>
    ensures { Fits128 (rounded_up alignment k) result }
{
    if alignment == 0 {
        return Some(k);
    }
    let alignment = u128::from(alignment);
    let over = k % alignment;
    if over == 0 {
        return Some(k);
    }
    k.checked_add(alignment - over)
}

fn lead_len(lead: &Lead) -> u128
    ensures { result ≡ lead_size (empties_of lead.now) }
{
    match lead {
        Lead::None => 0,
        Lead::Record(_) => 1,
    }
}

// The sectors of a block from a partition's start on, where there are some.
fn part_in(space: &Space, alignment: u64, block: Run) -> Option<Run>
    ensures { result ≡ part_of (area_of space.now) alignment block }
{
    let first = block.first.checked_add(lead_len(&space.lead))?;
    let first = round_up(alignment, first)?;
    if first > block.last {
        return None;
    }
    Some(Run {
        first,
        last: block.last,
    })
}

// The longer of two parts, the first of equal ones.
fn longer(best: Option<Run>, other: Option<Run>) -> Option<Run>
    requires best { IfSome best (λ r. r.first ≤ r.last) }
    requires other { IfSome other (λ r. r.first ≤ r.last) }
    ensures { result ≡ longer_of best other }
{
    match (best, other) {
        (best, None) => best,
        (None, other) => other,
        (Some(b), Some(r)) => {
            if b.last - b.first < r.last - r.first {
                Some(r)
            } else {
                Some(b)
            }
        }
    }
}

// The best part after the gap before a taken run.
fn past_gap(space: &Space, alignment: u64, best: Option<Run>, first: u128, run: &Run) -> Option<Run>
    requires { IfSome best (λ r. r.first ≤ r.last) }
    ensures { result ≡ best_past (area_of space.now) alignment best first run.now }
{
    if first >= run.first {
        return best;
    }
    let last = (run.first - 1).min(space.high);
    longer(best, part_in(space, alignment, Run { first, last }))
}

// Of taken runs by ascending first sector, the part of the largest block.
fn sweep(space: &Space, alignment: u64) -> Option<Run>
    requires { IsNonDecreasingBy (λ r. r.first) space.now.taken.items }
    ensures { result ≡ longest (area_of space.now) alignment (blocks_of (area_of space.now)) }
{
    if space.low > space.high {
        return None;
    }
    let mut best = None;
    let mut first = space.low;
    for run in &space.taken {
        if run.first <= run.last {
            best = past_gap(space, alignment, best, first, run);
            if run.last >= space.high {
                return best;
            }
            first = first.max(run.last + 1);
        }
    }
    let last = space.high;
    longer(best, part_in(space, alignment, Run { first, last }))
}

// The part of the largest block. It takes no memory: the runs are sorted in place.
pub(crate) fn largest(space: &mut Space, alignment: u64) -> Option<Run>
    ensures { result ≡ longest (area_of space.old) alignment (blocks_of (area_of space.old)) }
{
    space.taken.sort_unstable_by_key(|run| run.first);
    sweep(space, alignment)
}

// The last sector of the block that has a free one.
pub(crate) fn block_end(space: &Space, first: u128) -> u128
    requires { IsFree (area_of space.now) first }
    ensures { EndsBlock (area_of space.now) first result }
{
    let mut last = space.high;
    for run in &space.taken {
        if first < run.first && run.first <= run.last && run.first <= last {
            last = run.first - 1;
        }
    }
    last
}

// Adds the gap before a taken run, where there is one.
fn push_gap(blocks: &mut Vec<Run>, space: &Space, first: u128, run: &Run) -> Result<(), AllocError>
    ensures { OnOk result (blocks.new.items ≡ with_gap (area_of space.now) blocks.old.items first run.now) }
{
    if first < run.first {
        let last = (run.first - 1).min(space.high);
        blocks.push(Run { first, last })?;
    }
    Ok(())
}

// Of taken runs by ascending first sector, the blocks between them.
fn between(alloc: Global, space: &Space) -> Result<Vec<Run>, AllocError>
    requires { IsNonDecreasingBy (λ r. r.first) space.now.taken.items }
    ensures { IfOk result (λ list. AreBlocks (area_of space.now) list.items) }
{
    let mut blocks = Vec::new(alloc);
    if space.low > space.high {
        return Ok(blocks);
    }
    let mut first = space.low;
    for run in &space.taken {
        if run.first <= run.last {
            push_gap(&mut blocks, space, first, run)?;
            if run.last >= space.high {
                return Ok(blocks);
            }
            first = first.max(run.last + 1);
        }
    }
    let last = space.high;
    blocks.push(Run { first, last })?;
    Ok(blocks)
}

/// All blocks, in ascending order.
pub fn blocks(alloc: Global, space: Space) -> Result<Vec<Run>, AllocError>
    ensures { IfOk result (λ list. AreBlocks (area_of space) list.items) }
{
    let mut space = space;
    space.taken.sort_unstable_by_key(|run| run.first);
    between(alloc, &space)
}
