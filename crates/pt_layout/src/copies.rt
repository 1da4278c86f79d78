//! What is wrong with the copies of a GPT.

ghost use Rattle.std.specs.Prelude.{◌≡◌, ◌≤◌, IfOk, IfErr, Some};
ghost use Rattle.pt_sector.specs.Device.{Blames};
ghost use Rattle.pt_sector.specs.Overlays.{OnlyReads, FailedIn, fault_of};
ghost use Rattle.pt_sector.specs.Sectors.{IsSectorSize};
ghost use Rattle.pt_gpt.specs.Copies.{fault_in as fault_in_copy, FailedInCopy, TellsFault, SideReads, HasRoom, AreEntries, CopyWith};
ghost use Rattle.pt_gpt.specs.declared.table.Side.TheVariants.{Primary, Backup};
ghost use Rattle.pt_recover.specs.Denotes.{IsMbrDisk, FoundCopyIs};
ghost use Rattle.pt_members.specs.declared.layout.Body.TheVariants.{Gpt};
ghost use Rattle.pt_layout.specs.inner.Surveys.{TwinIs, PairIs, BrokenIs};
ghost use Rattle.pt_layout.specs.Surveys.{HeadOf};

use crate::health::Head;
use crate::sound::Finding;
use pt_gpt::{CopyError, Header, LastArray, Side, Table, read_head, read_same};
use pt_recover::FoundCopy;
use pt_sector::{Disk, Failure};
use std::alloc::Global;

/// The backup beside a primary copy.
#[derive(Drop)]
pub struct Twin {
    /// What its header names as the other's sector.
    pub(crate) alternate: u64,
    /// Whether its table is that of the primary copy.
    pub(crate) same: bool,
}

// The backup beside the primary copy of this table, which was decoded from the last array. Its sectors decide nothing: no trace has them.
fn read_twin<const B: usize, D: Disk<B>>(
    alloc: Global,
    disk: &mut D,
    table: &Table,
    last: &mut LastArray,
) -> Result<Twin, CopyError>
    requires size { IsSectorSize B }
    requires room { HasRoom B (D.count disk.old) }
    requires last { AreEntries table.now.entries last.old }
    ensures same { OnlyReads D.Disk disk.old disk.new }
    ensures blames { Blames fault_in_copy result (D.faults disk.old) (D.faults disk.new) }
    ensures place { D.tells → IfErr result (FailedInCopy (SideReads B (D.told disk.old).seen Backup)) }
    ensures ok { D.tells → IfOk result (λ w. TwinIs B (D.told disk.old).seen table.now w) }
    ensures err { D.tells → IfErr result (λ e. TellsFault B (D.told disk.old).seen Backup e) }
{
    let header = read_head(disk, Side::Backup)?;
    let same = read_same(alloc, disk, Side::Backup, &header, table, last)?;
    Ok(Twin {
        alternate: header.alternate,
        same,
    })
}

// The first thing that is wrong with the two copies, and with sector 0.
fn broken_pair(sectors: u64, head: Head, primary: &Header, backup: Twin) -> Option<Finding>
    requires { 1 ≤ sectors }
    ensures { PairIs sectors head primary.now backup result }
{
    if !backup.same {
        return Some(Finding::CopiesDiffer);
    }
    if primary.alternate != sectors - 1 {
        return Some(Finding::Alternate(Side::Primary));
    }
    if backup.alternate != 1 {
        return Some(Finding::Alternate(Side::Backup));
    }
    match head {
        Head::Protected => None,
        _ => Some(Finding::Protective),
    }
}

// The first thing that is wrong with the copies where the primary one exists, and with sector 0.
fn broken_beside<const B: usize, D: Disk<B>>(
    alloc: Global,
    disk: &mut D,
    head: Head,
    primary: &FoundCopy,
    last: &mut LastArray,
) -> Result<Option<Finding>, Failure>
    requires size { IsSectorSize B }
    requires room { HasRoom B (D.count disk.old) }
    requires head { D.tells → HeadOf (D.told disk.old).seen head }
    requires plain { D.tells → ¬ IsMbrDisk (D.told disk.old).seen }
    requires primary { D.tells → CopyWith B (D.told disk.old).seen Primary primary.now.header primary.now.table }
    requires last { AreEntries primary.now.table.entries last.old }
    ensures same { OnlyReads D.Disk disk.old disk.new }
    ensures blames { Blames fault_of result (D.faults disk.old) (D.faults disk.new) }
    ensures place { D.tells → IfErr result (FailedIn (SideReads B (D.told disk.old).seen Backup)) }
    ensures ok { D.tells → IfOk result (BrokenIs B (D.told disk.old).seen (Gpt primary.now.table)) }
{
    let sectors = disk.sectors();
    let e = match read_twin(alloc, disk, &primary.table, last) {
        Ok(backup) => return Ok(broken_pair(sectors, head, &primary.header, backup)),
        Err(e) => e,
    };
    match e.failure() {
        Some(failure) => Err(failure),
        None => Ok(Some(Finding::BackupCopy(e))),
    }
}

/// The first thing that is wrong with the copies of a disk that isn't an MBR disk, and with its sector 0. Where the primary copy exists,
/// the backup is read too: its array is neither summed nor decoded where it has the bytes of the primary's, which was read last.
pub(crate) fn broken_copies<const B: usize, D: Disk<B>>(
    alloc: Global,
    disk: &mut D,
    head: Head,
    found: &FoundCopy,
    last: &mut LastArray,
) -> Result<Option<Finding>, Failure>
    requires size { IsSectorSize B }
    requires room { HasRoom B (D.count disk.old) }
    requires head { D.tells → HeadOf (D.told disk.old).seen head }
    requires plain { D.tells → ¬ IsMbrDisk (D.told disk.old).seen }
    requires found { D.tells → FoundCopyIs B (D.told disk.old).seen found.now }
    requires last { AreEntries found.now.table.entries last.old }
    ensures same { OnlyReads D.Disk disk.old disk.new }
    ensures blames { Blames fault_of result (D.faults disk.old) (D.faults disk.new) }
    ensures place { D.tells → IfErr result (FailedIn (SideReads B (D.told disk.old).seen Backup)) }
    ensures ok { D.tells → IfOk result (BrokenIs B (D.told disk.old).seen (Gpt found.now.table)) }
{
    match found.no_primary {
        Some(e) => Ok(Some(Finding::PrimaryCopy(e))),
        None => broken_beside(alloc, disk, head, found, last),
    }
}
