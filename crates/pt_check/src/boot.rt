//! The boot code: the first 440 bytes of sector 0.

ghost use Rattle.std.specs.Prelude.{◌≡◌, ◌≤◌, ◌<◌, ◌↔◌, IsTrue, take, length, IfOk, IfErr};
ghost use Rattle.pt_sector.specs.Device.{Blames};
ghost use Rattle.pt_sector.specs.Overlays.{OnlyReads, read_of};
ghost use Rattle.pt_sector.specs.Sectors.{IsSectorSize};
ghost use Rattle.pt_apply.specs.Plans.{phases_of, writes_in, NoneIs};
ghost use Rattle.pt_check.specs.Answers.{WritesHead, ChangesBoot};
ghost use Rattle.pt_check.specs.inner.Answers.{NumberIs};

use crate::writes::{Objection, first_in_plan};
use pt_apply::{Plan, Write};
use pt_sector::{Disk, FailedRead, Lba, read_sector};

/// How many bytes of sector 0 are the boot code.
const BOOT_CODE: usize = 440;

fn boot_code(sector: &[u8]) -> &[u8]
    requires { 440 ≤ length sector.now }
    ensures { result.now ≡ take 440 sector.now }
{
    &sector[..BOOT_CODE]
}

pub(crate) fn same_bytes(bytes: &[u8], others: &[u8]) -> bool
    ensures { IsTrue result ↔ (bytes.now ≡ others.now) }
{
    *bytes == *others
}

/// Against writes of sector 0 with another boot code.
#[derive(Clone, Copy)]
struct OtherBootCode<'a> {
    kept: &'a [u8],
}

impl<const B: usize> Objection<B> for OtherBootCode<'_> {
    ghost against = { λ o w. (w.0 ≡ 0) × ¬ (take 440 w.1 ≡ o.kept.now) };

    fn objects(&self, write: &Write<B>) -> bool {
        if write.lba.0 != 0 {
            return false;
        }
        if same_bytes(boot_code(&write.bytes), self.kept) {
            return false;
        }
        true
    }
}

/// Against writes of sector 0.
#[derive(Clone, Copy)]
struct OfSector0;

impl<const B: usize> Objection<B> for OfSector0 {
    ghost against = { λ _ w. w.0 ≡ 0 };

    fn objects(&self, write: &Write<B>) -> bool {
        write.lba.0 == 0
    }
}

/// The number of the first write that changes the disk's boot code, from 1. Sector 0 is read where the plan writes it.
pub(crate) fn other_boot_code<const B: usize, D: Disk<B>>(
    disk: &mut D,
    plan: &Plan<B>,
) -> Result<Option<u64>, FailedRead>
    requires size { IsSectorSize B }
    requires few { length (writes_in (phases_of plan.now)) ≤ 4096 }
    requires inside { NoneIs (λ w. ¬ (w.0 < D.count disk.old)) (writes_in (phases_of plan.now)) }
    ensures same { OnlyReads D.Disk disk.old disk.new }
    ensures blames { Blames read_of result (D.faults disk.old) (D.faults disk.new) }
    ensures place { IfErr result (λ e. (e.0.0 ≡ 0) × WritesHead (phases_of plan.now)) }
    ensures found { D.tells → IfOk result (λ n. NumberIs (phases_of plan.now) (ChangesBoot (D.told disk.old).seen) n) }
{
    if disk.sectors() == 0 {
        return Ok(None);
    }
    if first_in_plan(&OfSector0, plan).is_none() {
        return Ok(None);
    }
    let mut head = [0; B];
    read_sector(disk, Lba(0), &mut head)?;
    match first_in_plan(
        &OtherBootCode {
            kept: boot_code(&head),
        },
        plan,
    ) {
        Some(found) => Ok(Some(found.number)),
        None => Ok(None),
    }
}
