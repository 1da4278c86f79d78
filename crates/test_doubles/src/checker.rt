//! A checker that copies the disk and looks at one thing after the other.

ghost use Rattle.pt_sector.specs.Sectors.{IsSectorSize};

use crate::disks::copied;
use pt_apply::{Plan, Write};
use pt_check::{Answer, Why};
use pt_disks::in_memory::MemDisk;
use pt_layout::{Layout, Verdict, is_owned, is_table, verify};
use pt_recover::{Trace, recover_traced};
use pt_sector::{Disk, Lba, Sector};
use std::alloc::Global;
use std::test::Fail;
use test_samples::{put, sector};

/// What a disk denotes, and the sectors that decide it.
#[derive(Drop)]
struct Seen {
    layout: Option<Layout>,
    trace: Trace,
}

fn look<const B: usize>(alloc: Global, disk: &mut MemDisk<B>) -> Seen
    requires { IsSectorSize B }
{
    let (answer, trace) = recover_traced(alloc, disk);
    Seen {
        layout: answer.ok(),
        trace,
    }
}

fn are_same(one: &Option<Layout>, other: &Option<Layout>) -> bool {
    match (one, other) {
        (Some(one), Some(other)) => one.same(other),
        (None, None) => true,
        _ => false,
    }
}

fn too_many<const B: usize>(plan: &Plan<B>) -> bool {
    let mut count: usize = 0;
    for phase in &plan.phases {
        count = count.saturating_add(phase.len());
    }
    count > 4096
}

fn out_of_range<const B: usize>(plan: &Plan<B>, sectors: u64) -> Option<u64> {
    let mut number: u64 = 0;
    for phase in &plan.phases {
        for write in phase {
            number = number.saturating_add(1);
            if write.lba.0 >= sectors {
                return Some(number);
            }
        }
    }
    None
}

fn is_boot_code<const B: usize>(write: &Write<B>, head: &Sector<B>) -> bool
    requires { IsSectorSize B }
{
    if write.lba.0 != 0 {
        return false;
    }
    for k in 0..440usize {
        if write.bytes[k] != head[k] {
            return true;
        }
    }
    false
}

fn boot_code<const B: usize>(plan: &Plan<B>, head: &Sector<B>) -> Option<u64>
    requires { IsSectorSize B }
{
    let mut number: u64 = 0;
    for phase in &plan.phases {
        for write in phase {
            number = number.saturating_add(1);
            if is_boot_code(write, head) {
                return Some(number);
            }
        }
    }
    None
}

/// The first write of a phase of several that is of a sector that was read.
fn read_in<const B: usize>(phase: &[Write<B>], trace: &Trace) -> Option<Lba> {
    if phase.len() < 2 {
        return None;
    }
    for write in phase {
        if trace.contains(write.lba) {
            return Some(write.lba);
        }
    }
    None
}

fn write_phase<const B: usize>(disk: &mut MemDisk<B>, phase: &[Write<B>]) -> Result<(), Fail>
    requires { IsSectorSize B }
{
    for write in phase {
        put(disk, write.lba.0, &write.bytes)?;
    }
    Ok(())
}

/// The disk with the whole plan written.
fn finished<const B: usize>(
    alloc: Global,
    disk: &mut MemDisk<B>,
    plan: &Plan<B>,
) -> Result<MemDisk<B>, Fail>
    requires { IsSectorSize B }
{
    let mut end = copied(alloc, disk)?;
    for phase in &plan.phases {
        write_phase(&mut end, phase)?;
    }
    Ok(end)
}

/// Where the phases lead.
#[derive(Clone, Copy)]
enum Led {
    To(u64),
    No(Why),
}

/// The first write of a phase of several that is of a sector which decides what the disk denotes.
fn read_on<const B: usize>(alloc: Global, disk: &mut MemDisk<B>, phase: &[Write<B>]) -> Option<Lba>
    requires { IsSectorSize B }
{
    read_in(phase, &look(alloc, disk).trace)
}

/// Whether the disk denotes each of these, the old layout and the new one.
fn denotes<const B: usize>(
    alloc: Global,
    disk: &mut MemDisk<B>,
    old: &Option<Layout>,
    new: &Option<Layout>,
) -> (bool, bool)
    requires { IsSectorSize B }
{
    let now = look(alloc, disk).layout;
    (are_same(&now, old), are_same(&now, new))
}

/// The first phase after which the disk, a copy that is written, denotes the new layout, 0 where that is the old one; or
/// what is wrong with one.
fn where_led<const B: usize>(
    alloc: Global,
    disk: &mut MemDisk<B>,
    plan: &Plan<B>,
    old: &Option<Layout>,
    new: &Option<Layout>,
) -> Result<Led, Fail>
    requires { IsSectorSize B }
{
    let mut switch = 0;
    let mut number: u64 = 0;
    for phase in &plan.phases {
        number = number.saturating_add(1);
        if let Some(lba) = read_on(alloc, disk, phase) {
            return Ok(Led::No(Why::ReadSector(number, lba)));
        }
        write_phase(disk, phase)?;
        let (is_old, is_new) = denotes(alloc, disk, old, new);
        if is_old && switch == 0 {
            continue;
        }
        if !is_new {
            return Ok(Led::No(Why::Neither(number)));
        }
        if switch == 0 {
            switch = number;
        }
    }
    Ok(Led::To(switch))
}

fn is_in_tables<const B: usize>(layout: &Option<Layout>, lba: Lba) -> bool
    requires { IsSectorSize B }
{
    match layout {
        Some(layout) => is_table::<B>(layout, lba),
        None => false,
    }
}

fn is_in_use<const B: usize>(layout: &Option<Layout>, lba: Lba) -> bool
    requires { IsSectorSize B }
{
    match layout {
        Some(layout) => is_owned::<B>(layout, lba),
        None => false,
    }
}

fn misplaced<const B: usize>(
    plan: &Plan<B>,
    old: &Option<Layout>,
    new: &Option<Layout>,
) -> Option<Why>
    requires { IsSectorSize B }
{
    for phase in &plan.phases {
        for write in phase {
            if !is_in_tables::<B>(old, write.lba) && !is_in_tables::<B>(new, write.lba) {
                return Some(Why::NotATable(write.lba));
            }
        }
    }
    for phase in &plan.phases {
        for write in phase {
            if is_in_use::<B>(old, write.lba) || is_in_use::<B>(new, write.lba) {
                return Some(Why::Owned(write.lba));
            }
        }
    }
    None
}

/// What there is against a plan before its phases are tried.
fn at_once<const B: usize>(plan: &Plan<B>, sectors: u64, head: &Sector<B>) -> Option<Why>
    requires { IsSectorSize B }
{
    if too_many(plan) {
        return Some(Why::TooManyWrites);
    }
    if let Some(number) = out_of_range(plan, sectors) {
        return Some(Why::OutOfRange(number));
    }
    match boot_code(plan, head) {
        Some(number) => Some(Why::BootCode(number)),
        None => None,
    }
}

/// What there is against the finished disk, else the answer.
fn judged<const B: usize>(alloc: Global, end: &mut MemDisk<B>, switch: u64) -> Result<Answer, Fail>
    requires { IsSectorSize B }
{
    match verify(alloc, end)? {
        Verdict::Yes(_) => Ok(Answer::Yes { switch }),
        Verdict::No(finding) => Ok(Answer::No(Why::Final(finding))),
    }
}

/// What there is against the phases, by the layouts before and after them, else the switch.
fn against<const B: usize>(
    alloc: Global,
    disk: &mut MemDisk<B>,
    plan: &Plan<B>,
    old: &Option<Layout>,
    new: &Option<Layout>,
) -> Result<Led, Fail>
    requires { IsSectorSize B }
{
    let mut now = copied(alloc, disk)?;
    let led = where_led(alloc, &mut now, plan, old, new)?;
    Ok(match (led, misplaced(plan, old, new)) {
        (Led::To(_), Some(why)) => Led::No(why),
        (led, _) => led,
    })
}

/// The answer to a plan whose writes are few enough, within the disk, and leave its boot code.
fn by_phases<const B: usize>(
    alloc: Global,
    disk: &mut MemDisk<B>,
    plan: &Plan<B>,
) -> Result<Answer, Fail>
    requires { IsSectorSize B }
{
    let old = look(alloc, disk).layout;
    let mut end = finished(alloc, disk, plan)?;
    let new = look(alloc, &mut end).layout;
    match against(alloc, disk, plan, &old, &new)? {
        Led::To(switch) => judged(alloc, &mut end, switch),
        Led::No(why) => Ok(Answer::No(why)),
    }
}

/// The answer to a plan on a disk of at most `MOST` sectors.
pub fn plain_check<const B: usize>(
    alloc: Global,
    disk: &mut MemDisk<B>,
    plan: &Plan<B>,
) -> Result<Answer, Fail>
    requires { IsSectorSize B }
{
    let head: Sector<B> = sector(disk, 0)?;
    match at_once(plan, disk.sectors(), &head) {
        Some(why) => Ok(Answer::No(why)),
        None => by_phases(alloc, disk, plan),
    }
}
