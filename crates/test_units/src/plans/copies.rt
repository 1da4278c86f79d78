ghost use Rattle.std.specs.Prelude.{◌≡◌, ◌+◌, ◌*◌, ◌≤◌, length, IfOk};
ghost use Rattle.pt_sector.specs.Sectors.{IsSectorSize};
ghost use Rattle.pt_apply.specs.Plans.{PhaseInRange};
ghost use Rattle.pt_gpt.specs.Copies.{HasRoom};

use pt_apply::{Plan, Write};
use pt_gpt::{Entries, Entry, Table, array_sectors};
use pt_guid::Guid;
use pt_planner::copies::{backup_first, fits_table, protected_head, protecting};
use pt_sector::Lba;
use std::alloc::{AllocError, Global};
use std::test::Fail;

/// 0fc63daf-8483-4772-8e79-3d69d8477de4, the type of a Linux filesystem, as it is stored.
const LINUX: Guid = Guid([
    0xaf, 0x3d, 0xc6, 0x0f, 0x83, 0x84, 0x72, 0x47, 0x8e, 0x79, 0x3d, 0x69, 0xd8, 0x47, 0x7d, 0xe4,
]);

/// 00010203-0405-4607-8809-0a0b0c0d0e0f, as it is stored.
const DISK: Guid = Guid([3, 2, 1, 0, 5, 4, 7, 0x46, 0x88, 9, 10, 11, 12, 13, 14, 15]);

/// A table of 128 entries, of which the first is a partition of all usable sectors.
fn table<const B: usize>(alloc: Global, sectors: u64) -> Result<Table, AllocError>
    requires { IsSectorSize B }
    ensures { IfOk result (λ t. length t.entries ≤ 128) }
{
    let edge = array_sectors::<B>() + 2;
    let last = sectors.saturating_sub(edge);
    let mut entries = Vec::from_elem(alloc, None, 128)?;
    entries[0] = Some(Entry {
        kind: LINUX,
        unique: Guid([1; 16]),
        first: edge,
        last,
        attributes: 0,
        name: [97; 36],
    });
    Ok(Table {
        disk: DISK,
        first: edge,
        last,
        entries: Entries::new(entries),
    })
}

/// The writes of two labels, of sectors 100 and 200.
fn labels<const B: usize>(alloc: Global, sectors: u64) -> Result<Vec<Write<B>>, AllocError>
    requires size { IsSectorSize B }
    requires room { 256 ≤ sectors }
    ensures { IfOk result (λ ws. PhaseInRange sectors ws.items) }
{
    let mut writes = Vec::new(alloc);
    for k in 0..2u64 {
        writes.push(Write {
            lba: Lba(100 + 100 * k),
            bytes: [7; B],
        })?;
    }
    Ok(writes)
}

/// How many writes each phase has, and the sector of the first of them; five phases at most.
fn outline<const B: usize>(plan: &Plan<B>) -> [(usize, u64); 5]
    requires { IsSectorSize B }
{
    let mut outline = [(0, 0); 5];
    for i in 0..plan.phases.len() {
        if i < 5 && 0 < plan.phases[i].len() {
            outline[i] = (plan.phases[i].len(), plan.phases[i][0].lba.0);
        }
    }
    outline
}

/// The plan where a primary copy stands and sector 0 is protective.
fn with_primary<const B: usize>(
    alloc: Global,
    sectors: u64,
    labels: Vec<Write<B>>,
) -> Result<[(usize, u64); 5], AllocError>
    requires size { IsSectorSize B }
    requires room { HasRoom B sectors }
    requires range { PhaseInRange sectors labels.items }
{
    let table = table::<B>(alloc, sectors)?;
    let last = protecting(sectors, &protected_head(sectors, &[0; B]));
    let plan = backup_first(alloc, sectors, &table, labels, &last)?;
    Ok(outline(&plan))
}

/// The same with two labels.
fn with_two_labels<const B: usize>(
    alloc: Global,
    sectors: u64,
) -> Result<[(usize, u64); 5], AllocError>
    requires size { IsSectorSize B }
    requires room { HasRoom B sectors }
    requires many { 256 ≤ sectors }
{
    let two = labels::<B>(alloc, sectors)?;
    with_primary(alloc, sectors, two)
}

#[test]
fn phases_of_both_copies(rt: HostRuntime) -> Result<(), Fail> {
    let large = with_two_labels::<4096>(rt.alloc(), 256)?;
    assert!(rt; large == [(7, 100), (1, 1), (4, 2), (1, 1), (0, 0)]);
    Ok(())
}

#[test]
fn tables_that_fit(rt: HostRuntime) -> Result<(), Fail> {
    let small = table::<512>(rt.alloc(), 2048)?;
    assert!(rt; small.first == 34 && small.last == 2014);
    assert!(rt; fits_table::<512>(2048, &small) && !fits_table::<512>(2047, &small));
    let large = table::<4096>(rt.alloc(), 256)?;
    assert!(rt; large.first == 6 && large.last == 250);
    assert!(rt; fits_table::<4096>(256, &large) && !fits_table::<512>(256, &large));
    Ok(())
}
