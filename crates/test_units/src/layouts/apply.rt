ghost use Rattle.std.specs.Prelude.{◌≡◌, ◌≤◌, ◌+◌, ◌<◌, IfOk};
ghost use Rattle.pt_sector.specs.Sectors.{IsSectorSize};
ghost use Rattle.pt_apply.specs.Plans.{PhaseInRange, InRange};

use pt_apply::{Plan, Write, apply};
use pt_disks::in_memory::CrashDisk;
use pt_sector::{Disk, Fault, Lba};
use std::alloc::{AllocError, Global};

/// Writes of so many sectors from a first one, each with this byte throughout.
fn phase<const B: usize>(
    alloc: Global,
    first: u64,
    count: u64,
    byte: u8,
) -> Result<Vec<Write<B>>, AllocError>
    requires size { IsSectorSize B }
    requires range { first + count ≤ 4096 }
    ensures { IfOk result (λ p. PhaseInRange 4096 p.items) }
{
    let mut writes = Vec::new(alloc);
    for k in 0..count {
        writes.push(Write {
            lba: Lba(first + k),
            bytes: [byte; B],
        })?;
    }
    Ok(writes)
}

/// The phases of a renaming on 4,096 sectors: the backup, the primary header cleared, its array, and the header.
fn renaming<const B: usize>(alloc: Global) -> Result<Plan<B>, AllocError>
    requires size { IsSectorSize B }
    ensures { IfOk result (λ p. InRange 4096 p) }
{
    let mut phases = Vec::new(alloc);
    phases.push(phase(alloc, 4063, 33, 1)?)?;
    phases.push(phase(alloc, 1, 1, 2)?)?;
    phases.push(phase(alloc, 2, 32, 3)?)?;
    phases.push(phase(alloc, 1, 1, 4)?)?;
    Ok(Plan { phases })
}

fn byte_at<const B: usize, D: Disk<B>>(disk: &mut D, lba: u64) -> Result<u8, Fault>
    requires size { IsSectorSize B }
    requires range { lba < D.count disk.old }
    ensures count { D.count disk.new ≡ D.count disk.old }
    ensures name { D.name disk.new ≡ D.name disk.old }
{
    let mut sector = [0; B];
    disk.read(Lba(lba), &mut sector)?;
    Ok(sector[B - 1])
}

/// The flush that ends phase 2 is the 36th call of the device, and fails; sectors 1 and 2 after a crash.
fn stopped(
    alloc: Global,
    choices: &[usize],
) -> Result<(Result<(), Fault>, [Result<u8, Fault>; 2]), AllocError> {
    let plan = renaming::<512>(alloc)?;
    let mut disk: CrashDisk<512> = CrashDisk::new(alloc, 4096, 64)?;
    disk.fail_at(36, true);
    let answer = apply(&mut disk, &plan);
    let mut left = disk.stop(choices);
    Ok((answer, [byte_at(&mut left, 1), byte_at(&mut left, 2)]))
}

#[test]
fn a_failed_flush_ends_it_in_its_phase(rt: HostRuntime) {
    let failed = Err(Fault::Flush);
    assert!(rt; stopped(rt.alloc(), &[0]) == Ok((failed, [Ok(0), Ok(0)])));
    assert!(rt; stopped(rt.alloc(), &[1]) == Ok((failed, [Ok(2), Ok(0)])));
}
