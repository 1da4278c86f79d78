//! `show`, `verify`, `locate` and `free`.

ghost use Rattle.std.specs.Prelude.{◌≡◌};
ghost use Rattle.pt_sector.specs.Device.{Blames};
ghost use Rattle.pt_sector.specs.Overlays.{OnlyReads};
ghost use Rattle.pt_sector.specs.Sectors.{IsSectorSize};
ghost use Rattle.pt_recover.specs.Denotes.{fault_in};
ghost use Rattle.pt_apply.specs.Plans.{phases_of};
ghost use Rattle.pt_answers.specs.Answers.{Frees, Locates, NamesCopy, NamesPlace, PlaceIs};
ghost use Rattle.pt_answers.specs.OnDisks.{FreesOn, LocatesOn, ShowsAfter, ShowsCopy, ShowsDisk, VerifiesDisk};

use crate::failure::Failure;
use pt_apply::Plan;
use pt_check::Answer;
use pt_edit::{FreeBlock, all_free_blocks};
use pt_gpt::Side;
use pt_layout::{
    Layout, NoTable, Path, locate, parse_number, parse_path, recover, recover_from, verify,
};
use pt_plan::{After, layout_after};
use pt_report::Reply;
use pt_sector::{Disk, Lba};
use std::alloc::Global;

/// The layout that a disk denotes.
pub fn show_disk<const B: usize, D: Disk<B>>(alloc: Global, disk: &mut D) -> Result<Reply, Failure>
    requires size { IsSectorSize B }
    ensures shows { ShowsDisk D.Disk disk.old disk.new result }
{
    let layout = recover::<B, D>(alloc, disk)?;
    Ok(Reply::Layout(layout))
}

/// The layout that a disk would denote after a plan, or the checker's no.
pub fn show_after<const B: usize, D: Disk<B>>(
    alloc: Global,
    disk: &mut D,
    plan: &Plan<B>,
) -> Result<Reply, Failure>
    requires size { IsSectorSize B }
    ensures shows { ShowsAfter D.Disk (phases_of plan.now) disk.old disk.new result }
{
    match layout_after::<B, D>(alloc, disk, plan)? {
        After::Layout(layout) => Ok(Reply::Layout(layout)),
        After::No(why) => Ok(Reply::Checked(Answer::No(why))),
    }
}

/// The layout that one copy of a GPT gives alone.
pub fn show_copy<const B: usize, D: Disk<B>>(
    alloc: Global,
    disk: &mut D,
    side: Side,
) -> Result<Reply, Failure>
    requires size { IsSectorSize B }
    ensures shows { ShowsCopy D.Disk side disk.old disk.new result }
{
    match recover_from::<B, D>(alloc, disk, side) {
        Ok(layout) => Ok(Reply::Layout(layout)),
        Err(why) => Err(Failure::NoSide(side, why)),
    }
}

/// Whether a disk is healthy: yes, or the first finding.
pub fn verify_disk<const B: usize, D: Disk<B>>(
    alloc: Global,
    disk: &mut D,
) -> Result<Reply, Failure>
    requires size { IsSectorSize B }
    ensures verifies { VerifiesDisk D.Disk disk.old disk.new result }
{
    let verdict = verify::<B, D>(alloc, disk)?;
    Ok(Reply::Verdict(verdict))
}

/// Where on a disk sector `k`, from 0 on, of a partition is.
pub fn locate_on<const B: usize, D: Disk<B>>(
    alloc: Global,
    disk: &mut D,
    path: &Path,
    k: u64,
) -> Result<Reply, Failure>
    requires size { IsSectorSize B }
    ensures locates { LocatesOn D.Disk path.now k disk.old disk.new result }
{
    let place = place_on::<B, D>(alloc, disk, path, k)?;
    Ok(Reply::Place(place))
}

// That place, or why the disk denotes nothing.
fn place_on<const B: usize, D: Disk<B>>(
    alloc: Global,
    disk: &mut D,
    path: &Path,
    k: u64,
) -> Result<Option<Lba>, NoTable>
    requires size { IsSectorSize B }
    ensures same { OnlyReads D.Disk disk.old disk.new }
    ensures blames { Blames fault_in result (D.faults disk.old) (D.faults disk.new) }
    ensures locates { D.tells → Locates B (D.told disk.old).seen path.now k result }
{
    let layout = recover::<B, D>(alloc, disk)?;
    Ok(place_in::<B>(&layout, path, k))
}

fn place_in<const B: usize>(layout: &Layout, path: &Path, k: u64) -> Option<Lba>
    ensures { PlaceIs B layout.now path.now k result }
{
    locate::<B>(layout, path, k)
}

/// The blocks of sectors where a new partition may lie on a disk.
pub fn free_on<const B: usize, D: Disk<B>>(alloc: Global, disk: &mut D) -> Result<Reply, Failure>
    requires size { IsSectorSize B }
    ensures frees { FreesOn D.Disk disk.old disk.new result }
{
    let blocks = blocks_on::<B, D>(alloc, disk)?;
    Ok(Reply::Free(blocks))
}

// Those blocks, or why the disk denotes nothing.
fn blocks_on<const B: usize, D: Disk<B>>(
    alloc: Global,
    disk: &mut D,
) -> Result<Vec<FreeBlock>, NoTable>
    requires size { IsSectorSize B }
    ensures same { OnlyReads D.Disk disk.old disk.new }
    ensures blames { Blames fault_in result (D.faults disk.old) (D.faults disk.new) }
    ensures frees { D.tells → Frees B (D.told disk.old).seen result }
{
    let layout = recover::<B, D>(alloc, disk)?;
    Ok(all_free_blocks::<B>(alloc, &layout)?)
}

/// The copy that a text names, `primary` or `backup`. With a plan's file none is named: what a plan leaves is a table, and no copy.
pub fn copy_named(name: &str, after: &Option<String>) -> Result<Side, Failure>
    ensures { NamesCopy name.now after.now result }
{
    if let Some(_) = after {
        return Err(Failure::BadCopy);
    }
    match name {
        "primary" => Ok(Side::Primary),
        "backup" => Ok(Side::Backup),
        _ => Err(Failure::BadCopy),
    }
}

/// The partition and the number of its sector that two texts are.
pub fn place_named(path: &str, number: &str) -> Result<(Path, u64), Failure>
    ensures { NamesPlace path.now number.now result }
{
    let Some(path) = parse_path(path) else {
        return Err(Failure::BadPath);
    };
    match parse_number(number) {
        Some(k) => Ok((path, k)),
        None => Err(Failure::BadNumber),
    }
}
