//! The real `verify`, survey, trace and `check` beside the plain ones.

ghost use Rattle.pt_sector.specs.Sectors.{IsSectorSize};

use crate::checker::plain_check;
use crate::drawn::{Dice, gpt_image, mbr_image};
use crate::health::{plain_places, plain_trace, plain_verify};
use pt_apply::Plan;
use pt_check::check;
use pt_disks::in_memory::MemDisk;
use pt_gpt::{Side, array_sectors, read_copy};
use pt_layout::{Finding, Head, NoTable, Survey, Verdict, recover_traced, survey_disk, verify};
use pt_sector::{Disk, Lba};
use std::alloc::Global;
use std::test::Fail;

/// The number of a finding, 0 where there is none; 12 to 15 for the four reasons of a disk to denote nothing.
fn kind_of(finding: &Option<Finding>) -> u8 {
    match finding {
        None => 0,
        Some(Finding::NoTable(NoTable::Chain(_))) => 12,
        Some(Finding::NoTable(NoTable::TwoExtended)) => 13,
        Some(Finding::NoTable(NoTable::NoCopy(_, _))) => 14,
        Some(Finding::NoTable(NoTable::TooSmall)) => 15,
        Some(finding) => finding.number(),
    }
}

/// Whether a survey guards what the plain reading says, and tells of the primary copy what a reading of it says.
fn surveyed<const B: usize>(
    alloc: Global,
    disk: &mut MemDisk<B>,
    told: &Survey,
) -> Result<bool, Fail>
    requires { IsSectorSize B }
{
    let is_mbr = told.head == Head::Mbr;
    let guarded = if is_mbr {
        plain_trace(alloc, disk)?
    } else {
        plain_places(alloc, disk)?
    };
    for s in 0..disk.sectors() {
        if told.guarded.contains(Lba(s)) != guarded.contains(&s) {
            return Ok(false);
        }
    }
    if is_mbr || disk.sectors() < 2 * array_sectors::<B>() + 4 {
        return Ok(!told.primary);
    }
    Ok(told.primary == read_copy(alloc, disk, Side::Primary).is_ok())
}

/// Whether the trace of `recover` is the plain one.
fn is_traced<const B: usize>(alloc: Global, disk: &mut MemDisk<B>) -> Result<bool, Fail>
    requires { IsSectorSize B }
{
    let (_, trace) = recover_traced(alloc, disk);
    let read = plain_trace(alloc, disk)?;
    for s in 0..disk.sectors() {
        if trace.contains(Lba(s)) != read.contains(&s) {
            return Ok(false);
        }
    }
    Ok(true)
}

/// Whether the survey is right.
fn is_surveyed<const B: usize>(alloc: Global, disk: &mut MemDisk<B>) -> Result<bool, Fail>
    requires { IsSectorSize B }
{
    match survey_disk(alloc, disk) {
        Ok(told) => surveyed(alloc, disk, &told),
        Err(_) => Ok(false),
    }
}

/// What `verify` finds; nothing where it answers neither.
fn verified<const B: usize>(alloc: Global, disk: &mut MemDisk<B>) -> Option<Option<Finding>>
    requires { IsSectorSize B }
{
    match verify(alloc, disk) {
        Ok(Verdict::Yes(_)) => Some(None),
        Ok(Verdict::No(finding)) => Some(Some(finding)),
        Err(_) => None,
    }
}

/// What `verify` finds, where the plain one finds the same, both traces are one and the survey is right.
pub fn compared<const B: usize>(
    alloc: Global,
    disk: &mut MemDisk<B>,
) -> Result<Option<Option<Finding>>, Fail>
    requires { IsSectorSize B }
{
    if !is_traced(alloc, disk)? || !is_surveyed(alloc, disk)? {
        return Ok(None);
    }
    let found = verified(alloc, disk);
    let plain = plain_verify(alloc, disk)?;
    Ok(if found == Some(plain) { found } else { None })
}

/// Compares on so many drawn images, and answers which findings were seen; nothing where two answers differ.
pub fn compare_all<const B: usize>(alloc: Global, images: u64) -> Result<Option<[bool; 16]>, Fail>
    requires { IsSectorSize B }
{
    let mut seen = [false; 16];
    for seed in 0..images {
        let mut dice = Dice { state: seed / 2 };
        let mut disk = if seed % 2 == 0 {
            mbr_image::<B>(alloc, &mut dice)?
        } else {
            gpt_image::<B>(alloc, &mut dice)?
        };
        match compared(alloc, &mut disk)? {
            Some(found) => seen[(kind_of(&found) % 16) as usize] = true,
            None => return Ok(None),
        }
    }
    Ok(Some(seen))
}

/// Whether both checkers answer a plan with the same.
pub fn agrees<const B: usize>(
    alloc: Global,
    disk: &mut MemDisk<B>,
    plan: &Plan<B>,
) -> Result<bool, Fail>
    requires { IsSectorSize B }
{
    let plain = plain_check(alloc, disk, plan)?;
    Ok(check(alloc, disk, plan)? == plain)
}
