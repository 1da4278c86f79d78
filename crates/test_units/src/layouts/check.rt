ghost use Rattle.pt_sector.specs.Sectors.{IsSectorSize};

use pt_apply::{Plan, Write};
use pt_check::{Answer, CheckError, Why, check};
use pt_disks::in_memory::{CrashDisk, MemDisk};
use pt_sector::{Disk, Fault, Lba, Sector};
use std::alloc::{AllocError, Global};

/// How many sectors the disks have.
const SECTORS: u64 = 128;

/// Sector 0 of an MBR: the first byte of its boot code, and one partition of type 83 from sector 64 on, or none.
fn head<const B: usize>(boot: u8, sectors: u8) -> Sector<B>
    requires { IsSectorSize B }
{
    let mut bytes = [0; B];
    bytes[0] = boot;
    if sectors > 0 {
        bytes[450] = 0x83;
        bytes[454] = 64;
        bytes[458] = sectors;
    }
    bytes[510] = 0x55;
    bytes[511] = 0xAA;
    bytes
}

/// A write of a sector: of zeros, or of an MBR's with this first byte and a partition of so many sectors.
type Step = (u64, Option<(u8, u8)>);

const EMPTY: Step = (0, Some((0, 0)));

const FOUR: Step = (0, Some((0, 4)));

const EIGHT: Step = (0, Some((0, 8)));

fn write_of<const B: usize>(step: Step) -> Write<B>
    requires { IsSectorSize B }
{
    let (lba, bytes) = step;
    Write {
        lba: Lba(lba),
        bytes: match bytes {
            Some((boot, sectors)) => head(boot, sectors),
            None => [0; B],
        },
    }
}

/// A phase of one write.
fn phase_of<const B: usize>(alloc: Global, step: Step) -> Result<Vec<Write<B>>, AllocError>
    requires { IsSectorSize B }
{
    let mut phase = Vec::new(alloc);
    phase.push(write_of(step))?;
    Ok(phase)
}

/// Each write a phase of its own.
fn one_by_one<const B: usize>(alloc: Global, steps: &[Step]) -> Result<Plan<B>, AllocError>
    requires { IsSectorSize B }
{
    let mut phases = Vec::new(alloc);
    for step in steps {
        phases.push(phase_of(alloc, *step)?)?;
    }
    Ok(Plan { phases })
}

/// The answer to a plan on an MBR disk without a partition; a fault of a write of sector 0 where it can't be written.
fn on_mbr<const B: usize>(alloc: Global, plan: &Plan<B>) -> Result<Answer, CheckError>
    requires { IsSectorSize B }
{
    let mut disk: MemDisk<B> = MemDisk::new(alloc, SECTORS)?;
    match disk.write(Lba(0), &head(0, 0)) {
        Ok(()) => check(alloc, &mut disk, plan),
        Err(fault) => Err(CheckError::Device(fault)),
    }
}

/// The answer to writes in phases of their own.
fn in_turn<const B: usize>(alloc: Global, steps: &[Step]) -> Result<Answer, CheckError>
    requires { IsSectorSize B }
{
    on_mbr::<B>(alloc, &one_by_one(alloc, steps)?)
}

/// Writes in phases of their own, and the answer to them.
const PLANS: [(&[Step], Answer); 6] = [
    (&[EMPTY], Answer::Yes { switch: 0 }),
    (&[EMPTY, EIGHT, EIGHT], Answer::Yes { switch: 2 }),
    (&[EMPTY, (0, Some((1, 0)))], Answer::No(Why::BootCode(2))),
    (&[FOUR, EIGHT], Answer::No(Why::Neither(1))),
    (&[EIGHT, EMPTY, EIGHT], Answer::No(Why::Neither(2))),
    (&[(0, None), EMPTY], Answer::No(Why::Neither(1))),
];

/// Whether these are the answers.
fn are_answered<const B: usize>(alloc: Global) -> bool
    requires { IsSectorSize B }
{
    for (steps, want) in PLANS {
        if in_turn::<B>(alloc, steps) != Ok(want) {
            return false;
        }
    }
    true
}

#[test]
fn plans_of_4096_byte_sectors(rt: HostRuntime) {
    assert!(rt; are_answered::<4096>(rt.alloc()));
}

/// What a plan that changes nothing meets where this call of the disk from now on fails.
fn failing(alloc: Global, disk: &mut CrashDisk<512>, call: u64) -> Result<Answer, CheckError> {
    let plan = one_by_one(alloc, &[EMPTY])?;
    disk.fail_at(call, false);
    check(alloc, disk, &plan)
}

// Three sectors decide, and each is read once: sector 0, and where the two headers would be.
#[test]
fn a_failed_read(rt: HostRuntime) {
    let mut disk = CrashDisk::new(rt.alloc(), SECTORS, 4).expect(&rt, "memory");
    for (call, lba) in [(1, 0), (2, 1), (3, SECTORS - 1)] {
        let want = CheckError::Device(Fault::Read(Lba(lba)));
        assert!(rt; failing(rt.alloc(), &mut disk, call) == Err(want));
    }
    assert!(rt; failing(rt.alloc(), &mut disk, 4).is_ok());
}
