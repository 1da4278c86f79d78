//! Where no logical partition is placed, as docs/commands.md tells it.

use pt_edit::space::{Lead, Run, Space, place};
use pt_words::{End, Refusal};
use std::alloc::Global;
use std::test::Fail;

/// Where a logical partition is placed in an extended one from 4096 to 12287, where 6143 holds an empty record, and whether that is
/// as wanted.
fn follows(
    alloc: Global,
    taken: &[Run],
    (start, end): (u64, End),
    wanted: Result<Run, Refusal>,
) -> Result<bool, Fail> {
    let space = Space {
        low: 4096,
        high: 12287,
        taken: Vec::from_slice(alloc, taken)?,
        lead: Lead::Record(Vec::from_slice(alloc, &[6143])?),
    };
    Ok(place(space, 2048, start, end) == wanted)
}

fn logicals(alloc: Global) -> Result<bool, Fail> {
    let empty = [single(8191), single(6143), single(4096)];
    Ok(
        follows(alloc, &empty, (8192, End::Block), Err(Refusal::Overlap))?
            && follows(alloc, &[], (4096, End::Block), Err(Refusal::OutsideUsable))?,
    )
}

fn single(sector: u128) -> Run {
    Run {
        first: sector,
        last: sector,
    }
}

#[test]
fn logical_partitions(rt: HostRuntime) -> Result<(), Fail> {
    assert!(rt; logicals(rt.alloc())?);
    Ok(())
}
