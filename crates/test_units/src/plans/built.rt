//! What the planner says of layouts that a caller builds.

ghost use Rattle.pt_sector.specs.Sectors.{IsSectorSize};

use pt_apply::Plan;
use pt_disks::in_memory::MemDisk;
use pt_gpt::{Entries, Table, array_sectors};
use pt_layout::{Body, Labels, Layout};
use pt_plan::PlanError;
use pt_planner::make_plan;
use std::alloc::{AllocError, Global};
use std::test::Fail;
use test_samples::{DISK, entry, put_mbr};

/// A GPT of so many sectors with 128 entries, of which the first is a partition from this sector on.
fn layout<const B: usize>(alloc: Global, sectors: u64, first: u64) -> Result<Layout, AllocError>
    requires { IsSectorSize B }
{
    let edge = array_sectors::<B>() + 2;
    let last = sectors.saturating_sub(edge);
    let mut entries = Vec::from_elem(alloc, None, 128)?;
    entries[0] = entry(1, first, last);
    Ok(Layout {
        sectors,
        body: Body::Gpt(Table {
            disk: DISK,
            first: edge,
            last,
            entries: Entries::new(entries),
        }),
        labels: Labels::new(Vec::new(alloc)),
    })
}

fn number_of<const B: usize>(plan: Result<Plan<B>, PlanError>) -> u8 {
    match plan {
        Ok(_) => 99,
        Err(error) => error.number(),
    }
}

/// What the planner says of such a layout.
fn answer_for<const B: usize>(
    alloc: Global,
    disk: &mut MemDisk<B>,
    sectors: u64,
    first: u64,
) -> Result<u8, Fail>
    requires { IsSectorSize B }
{
    let wanted = layout::<B>(alloc, sectors, first)?;
    Ok(number_of(make_plan(alloc, disk, &wanted)))
}

/// What the planner says of a layout whose partition lies on the tables, of one for another size, and of a GPT on an
/// MBR disk, for which there is a plan.
fn answers<const B: usize>(alloc: Global) -> Result<[u8; 3], Fail>
    requires { IsSectorSize B }
{
    let mut disk: MemDisk<B> = MemDisk::new(alloc, 256)?;
    let outside = answer_for(alloc, &mut disk, 256, 1)?;
    let larger = answer_for(alloc, &mut disk, 512, 100)?;
    put_mbr(&mut disk, [None; 4])?;
    Ok([outside, larger, answer_for(alloc, &mut disk, 256, 100)?])
}

#[test]
fn layouts_with_and_without_a_plan(rt: HostRuntime) -> Result<(), Fail> {
    assert!(rt; answers::<512>(rt.alloc())? == [4, 1, 99]);
    assert!(rt; answers::<4096>(rt.alloc())? == [4, 1, 99]);
    Ok(())
}
