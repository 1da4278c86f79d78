//! Makes a partition table within a partition, as a virtual machine's disk has one: the partition is a disk of its own there.
//!
//! usage: example_disk
#![tactic(auto)]

mod part_disk;

ghost use Rattle.jawefon.specs.Sectors.{IsSectorSize};

use anyhow::{Context, Result, bail};
use jawefon::{
    Disk, Edit, Extent, Guid, Lba, MemDisk, Member, commit, fresh, members, parse_edit, recover,
};
use part_disk::PartDisk;

/// How many sectors the disk has.
const SECTORS: u64 = 1024;

/// The disk's own table, with one partition, for the guest.
static OUTER: [&str; 4] = ["o", "a:256", "n:1:256:+512:8300", "c:1:guest"];

/// The guest's table, within that partition.
static INNER: [&str; 4] = ["o", "a:8", "n:1:0:+128:EF00", "n:2:0:0:8300"];

/// The same three GUIDs for every disk, so that each run does the same. A program draws its own at random.
fn guids() -> [Guid; 3] {
    [fresh([1; 16]), fresh([2; 16]), fresh([3; 16])]
}

/// Does the words on a disk, of whatever type.
fn put_table<const B: usize, D: Disk<B>>(
    rt: &HostRuntime,
    disk: &mut D,
    words: &[&str],
) -> Result<()>
    requires { IsSectorSize B }
{
    let mut edits: Vec<Edit> = Vec::new(rt.alloc());
    for word in words {
        edits.push(parse_edit(rt.alloc(), word).context(format_args!("the word {word}"))?)?;
    }
    commit(rt.alloc(), disk, edits.as_slice(), &guids())?;
    Ok(())
}

/// Prints the partitions of a disk, of whatever type.
fn print_table<const B: usize, D: Disk<B>>(rt: &HostRuntime, disk: &mut D) -> Result<()>
    requires { IsSectorSize B }
{
    let layout = recover(rt.alloc(), disk)?;
    for part in &members::<B>(rt.alloc(), &layout)? {
        println!(rt;
            "  partition {}: sectors {} to {}",
            part.path, part.first, part.last
        )?;
    }
    Ok(())
}

/// The sectors of a partition; none where they lie past any disk.
fn extent_of(part: &Member) -> Option<Extent> {
    let first = u64::try_from(part.first).ok()?;
    let last = u64::try_from(part.last).ok()?;
    Extent::new(Lba(first), Lba(last))
}

/// The disk's first partition as a disk.
fn guest_of(rt: &HostRuntime, mut disk: MemDisk<512>) -> Result<PartDisk<512, MemDisk<512>>> {
    let layout = recover(rt.alloc(), &mut disk)?;
    let parts = members::<512>(rt.alloc(), &layout)?;
    let extent = match parts.first() {
        Some(part) => extent_of(part),
        None => bail!("the disk has no partition"),
    };
    let guest = match extent {
        Some(extent) => PartDisk::new(disk, extent.first(), extent.len()),
        None => None,
    };
    guest.context("the partition ends past the disk")
}

fn main(rt: HostRuntime) -> Result<()> {
    let mut disk: MemDisk<512> = MemDisk::new(rt.alloc(), SECTORS)?;
    put_table(&rt, &mut disk, &OUTER)?;
    println!(rt; "the disk:")?;
    print_table(&rt, &mut disk)?;
    let mut guest = guest_of(&rt, disk)?;
    // A crash here leaves the guest without a table or with all of it, and the disk's own table as it is.
    put_table(&rt, &mut guest, &INNER)?;
    println!(rt; "the guest's disk:")?;
    print_table(&rt, &mut guest)?;
    let mut whole = guest.into_disk();
    println!(rt; "the disk, as before:")?;
    print_table(&rt, &mut whole)
}
