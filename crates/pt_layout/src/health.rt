//! Whether a disk is healthy.

ghost use Rattle.std.specs.Prelude.{◌≡◌, ◌<◌, ℕ, IfOk, IfErr};
ghost use Rattle.pt_sector.specs.Device.{Blames};
ghost use Rattle.pt_sector.specs.Overlays.{OnlyReads, FailedIn, fault_of, read_of};
ghost use Rattle.pt_sector.specs.Sectors.{IsSectorSize, Sectors, sector};
ghost use Rattle.pt_recover.specs.Denotes.{RecordsAre};
ghost use Rattle.pt_layout.specs.inner.Surveys.{HeadIs};
ghost use Rattle.pt_layout.specs.Healthy.{VerdictIs, VerdictReads};
ghost use Rattle.pt_layout.specs.Surveys.{IsSurvey, Tells};

use crate::sound::Verdict;
use crate::survey::{Survey, survey_disk};
use pt_mbr::{Mbr, is_protective};
use pt_recover::records_of;
use pt_sector::{Disk, FailedRead, Failure, Lba, Sector, read_sector};
use std::alloc::Global;

/// What sector 0 says of a disk.
#[derive(Clone, Copy, PartialEq, Eq)]
pub enum Head {
    /// It is an MBR disk.
    Mbr,
    /// It isn't, and sector 0 protects it.
    Protected,
    /// It isn't, and sector 0 doesn't protect it.
    Unprotected,
}

// What sector 0 says, where these are the records of an MBR disk's, or none of another's.
fn head_in<const B: usize>(sectors: u64, sector: &Sector<B>, records: &Option<Mbr>) -> Head
    requires size { IsSectorSize B }
    requires records { RecordsAre sector.now records.now }
    ensures { HeadIs sectors sector.now result }
{
    match records {
        Some(_) => Head::Mbr,
        None => {
            if is_protective(sectors, sector) {
                Head::Protected
            } else {
                Head::Unprotected
            }
        }
    }
}

/// What sector 0 says, and the records of an MBR disk.
#[derive(Drop)]
pub(crate) struct First {
    pub head: Head,
    pub records: Option<Mbr>,
}

/// What sector 0 says, and its records where it is that of an MBR disk.
pub(crate) fn read_first<const B: usize, D: Disk<B>>(disk: &mut D) -> Result<First, FailedRead>
    requires size { IsSectorSize B }
    requires some { 0 < D.count disk.old }
    ensures same { OnlyReads D.Disk disk.old disk.new }
    ensures blames { Blames read_of result (D.faults disk.old) (D.faults disk.new) }
    ensures place { IfErr result (λ e. e.0.0 ≡ 0) }
    ensures head { D.tells → IfOk result (λ f. HeadIs (D.count disk.old) (sector (D.told disk.old).seen 0) f.head) }
    ensures records { D.tells → IfOk result (λ f. RecordsAre (sector (D.told disk.old).seen 0) f.records) }
{
    let sectors = disk.sectors();
    let mut sector = [0; B];
    read_sector(disk, Lba(0), &mut sector)?;
    let records = records_of(&sector);
    let head = head_in(sectors, &sector, &records);
    Ok(First { head, records })
}

// The verdict that a survey comes to.
fn verdict(survey: Survey) -> Verdict
    requires { Tells survey }
    ensures { (b : ℕ) → (d : Sectors) → IsSurvey b d survey → VerdictIs b d result }
{
    let (layout, finding, _) = survey.into_parts();
    match finding {
        Some(finding) => return Verdict::No(finding),
        None => {}
    }
    match layout {
        Some(layout) => Verdict::Yes(layout),
        None => unreachable!(),
    }
}

/// Whether the disk is healthy: it denotes a sound layout, no slice has a foreign label, and the copies of a GPT are
/// whole.
///
/// `Yes` exactly where it is, with its layout, and else the first finding.
pub fn verify<const B: usize, D: Disk<B>>(alloc: Global, disk: &mut D) -> Result<Verdict, Failure>
    requires size { IsSectorSize B }
    ensures same { OnlyReads D.Disk disk.old disk.new }
    ensures blames { Blames fault_of result (D.faults disk.old) (D.faults disk.new) }
    ensures place { D.tells → IfErr result (FailedIn (VerdictReads B (D.told disk.old).seen)) }
    ensures ok { D.tells → IfOk result (λ v. VerdictIs B (D.told disk.old).seen v) }
{
    let told = survey_disk(alloc, disk)?;
    Ok(verdict(told))
}
