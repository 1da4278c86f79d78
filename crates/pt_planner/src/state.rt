//! What a wanted layout is to what the disk denotes.

ghost use Rattle.std.specs.Prelude.{◌≡◌, ◌⊎◌, ◌↔◌, IsTrue, Option, Some, length, IfSome, IfNone};
ghost use Rattle.pt_sector.specs.Sectors.{Sectors, IsSectorSize};
ghost use Rattle.pt_layout.specs.Healthy.{IsHealthy};
ghost use Rattle.pt_layout.specs.Surveys.{IsSurvey};
ghost use Rattle.pt_recover.specs.Denotes.{Denotes};
ghost use Rattle.pt_cases.specs.Cases.{ChangesLabels, MayBePlanned};
ghost use Rattle.pt_planner.specs.inner.PlanReads.{IsBrokenBy, PlainOrder, IsMbrChange, NoMbrChange, IsChangeTo};

use crate::chains::is_linked;
use crate::copies::fits_table;
use crate::phases::Order;
use pt_gpt::Table;
use pt_layout::{Body, Ebrs, Finding, Layout, Survey};
use pt_mbr::Record;
use pt_sector::Sector;

/// Whether the disk denotes the layout.
fn is_same(old: &Option<Layout>, wanted: &Layout) -> bool
    ensures { IsTrue result ↔ (old.now ≡ Some wanted.now) }
{
    match old {
        Some(layout) => layout.same(wanted),
        None => false,
    }
}

/// Whether the disk is healthy with the layout.
pub(crate) fn is_done<const B: usize>(survey: &Survey, wanted: &Layout) -> bool
    requires { IsSectorSize B }
    ensures done { (d : Sectors) → IsSurvey B d survey.now → IsTrue result ↔ IsHealthy B d wanted.now }
    ensures stays { (survey.now.layout ≡ Some wanted.now) ⊎ ¬ (survey.now.layout ≡ Some wanted.now) }
{
    is_same(&survey.layout, wanted) && survey.finding.is_none()
}

/// An MBR in place of another one: the records and the chain of both.
#[derive(Clone, Copy)]
pub(crate) struct MbrChange<'a> {
    pub old_records: &'a [Option<Record>; 4],
    pub old_chain: &'a Ebrs,
    pub records: &'a [Option<Record>; 4],
    pub chain: &'a Ebrs,
}

/// What a disk gets with a layout that it may have.
#[derive(Clone, Copy)]
pub(crate) enum Change<'a> {
    /// An MBR in place of another one.
    Mbr(MbrChange<'a>),
    /// A table of a GPT, in place of anything.
    Gpt(&'a Table),
}

/// The change of a disk of so many sectors from this layout, or from none, to these records and this chain. There is one
/// only where the disk denotes an MBR, and so has a sector.
fn mbr_change<'a>(
    sectors: u64,
    old: &'a Option<Layout>,
    records: &'a [Option<Record>; 4],
    chain: &'a Ebrs,
) -> Option<MbrChange<'a>>
    ensures some { IfSome result (IsMbrChange sectors old.now) }
    ensures new { IfSome result (λ c. (c.records.now ≡ records.now) × (c.chain.now ≡ chain.now)) }
    ensures none { IfNone result (NoMbrChange sectors old.now records.now chain.now) }
{
    let layout = match old {
        Some(layout) => layout,
        None => return None,
    };
    let (old_records, old_chain) = match &layout.body {
        Body::Mbr { records, chain } => (records, chain),
        Body::Gpt(_) => return None,
    };
    if sectors == 0 || !is_linked(sectors, records, chain) {
        return None;
    }
    Some(MbrChange {
        old_records,
        old_chain,
        records,
        chain,
    })
}

/// The change of a disk of so many sectors from this layout, or from none, to the wanted one. There is none where it may
/// not have that one.
pub(crate) fn change_to<'a, const B: usize>(
    sectors: u64,
    old: &'a Option<Layout>,
    wanted: &'a Layout,
) -> Option<Change<'a>>
    requires { IsSectorSize B }
    ensures sectors { IfSome result (λ c. wanted.now.sectors ≡ sectors) }
    ensures some { IfSome result (IsChangeTo B sectors old.now wanted.now) }
    ensures none { IfNone result ((d : Sectors) → length d ≡ sectors → Denotes B d old.now → ¬ MayBePlanned B d old.now wanted.now) }
{
    if wanted.sectors != sectors {
        return None;
    }
    match &wanted.body {
        Body::Gpt(table) => {
            if fits_table::<B>(sectors, table) {
                Some(Change::Gpt(table))
            } else {
                None
            }
        }
        Body::Mbr { records, chain } => {
            let change = mbr_change(sectors, old, records, chain)?;
            Some(Change::Mbr(change))
        }
    }
}

/// Whether the layout has the old one's table and other labels.
pub(crate) fn changes_labels(old: &Option<Layout>, wanted: &Layout) -> bool
    ensures { IsTrue result ↔ ChangesLabels old.now wanted.now }
{
    match old {
        Some(layout) => layout.body.same(&wanted.body) && !layout.labels.same(&wanted.labels),
        None => false,
    }
}

/// Whether what is wrong is a copy of the GPT, or what protects it.
pub(crate) fn is_broken(finding: &Option<Finding>) -> bool
    ensures { IsBrokenBy finding.now result }
{
    match finding {
        Some(
            Finding::PrimaryCopy(_)
            | Finding::BackupCopy(_)
            | Finding::CopiesDiffer
            | Finding::Alternate(_)
            | Finding::Protective,
        ) => true,
        _ => false,
    }
}

/// In which order both copies are written where the disk is no MBR disk.
pub(crate) fn plain_order<const B: usize>(primary: bool, head: Option<Sector<B>>) -> Order<B>
    ensures { PlainOrder primary head.entry result }
{
    if primary {
        Order::BackupFirst(head)
    } else {
        Order::PrimaryFirst(head)
    }
}
