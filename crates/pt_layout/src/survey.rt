//! What one reading of a disk tells.

ghost use Rattle.std.specs.Prelude.{◌≡◌, ◌<◌, ◌≤◌, ◌^◌, ◌↔◌, ℕ, IfOk, IfErr, IfSome, OnOk, IsTrue, All, Some, None, false};
ghost use Rattle.pt_sector.specs.Device.{Blames};
ghost use Rattle.pt_sector.specs.Overlays.{OnlyReads, FailedIn, fault_of};
ghost use Rattle.pt_sector.specs.Sectors.{IsSectorSize};
ghost use Rattle.pt_gpt.specs.Copies.{HasRoom, AreEntries};
ghost use Rattle.pt_recover.specs.Denotes.{Denotes, Reads, IsMbr, IsMbrDisk, Numbers, IsTraceOf, FoundCopyIs, told_reason};
ghost use Rattle.pt_recover.specs.declared.error.Reason.{Reason};
ghost use Rattle.pt_members.specs.Members.{places_of, place_of, IsPlace};
ghost use Rattle.pt_recover.specs.Spans.{Adds};
ghost use Rattle.pt_members.specs.declared.layout.Body.TheVariants.{Gpt};
ghost use Rattle.pt_layout.specs.inner.Surveys.{LayoutOf, BrokenIs, IsBodyTrace, nothing_of};
ghost use Rattle.pt_layout.specs.Healthy.{IsBodyWhole, VerdictReads};
ghost use Rattle.pt_layout.specs.Surveys.{HeadOf, FindingIs, IsSurvey, Tells};
ghost use Rattle.pt_layout.specs.declared.sound.finding.Finding.TheVariants as finding;

use crate::copies::broken_copies;
use crate::foreign::first_foreign;
use crate::health::{Head, read_first};
use crate::sound::{Finding, unsound};
use pt_gpt::{LastArray, Table, has_room};
use pt_mbr::Mbr;
use pt_members::{Body, Layout, Slice, label_places};
use pt_path::Path;
use pt_recover::{FoundCopy, NoTable, Reason, Trace, read_either, read_layout, traced_labels};
use pt_sector::{Disk, Failure, ReadCache, Room};
use std::alloc::{AllocError, Global};

/// What one reading of a disk tells.
pub struct Survey {
    /// What sector 0 says of the disk: of one with no sectors `Unprotected`.
    pub head: Head,
    /// The layout that the disk denotes, none where it denotes nothing.
    pub layout: Option<Layout>,
    /// The first thing that is wrong with the disk, none where it is healthy. Of a disk that denotes nothing it is
    /// `NoTable` of a [`Reason`].
    pub finding: Option<Finding>,
    /// Whether the primary copy of a GPT exists. On an MBR disk, and on one with no room for a GPT, it is false.
    pub primary: bool,
    /// The sectors that a plan may write in its switch alone: on an MBR disk all that recovery reads, on any other disk
    /// the label places of the layout.
    pub guarded: Trace,
    /// The sectors that recovery reads: they decide what the disk denotes.
    pub trace: Trace,
}

// By hand: a derived drop stands in each function at each of its exits, and is proved there.
impl Drop for Survey {
    fn drop(self) {
        let Survey {
            head: _,
            layout: _,
            finding: _,
            primary: _,
            guarded: _,
            trace: _,
        } = self;
    }
}

impl Survey {
    /// Why the disk denotes nothing, where it does: a [`Reason`], so never `Device` or `Memory`.
    pub fn reason(&self) -> NoTable
        requires tells { Tells self.now }
        requires none { self.now.layout ≡ None }
        ensures why { self.now.finding ≡ Some (finding.NoTable result) }
        ensures told { (r : Reason) × (result ≡ told_reason r) }
    {
        match self.finding {
            Some(Finding::NoTable(reason)) => reason,
            _ => unreachable!(),
        }
    }

    /// What the disk denotes, what is wrong with it, and the sectors that decide what it denotes.
    pub fn into_parts(self) -> (Option<Layout>, Option<Finding>, Trace)
        ensures { result ≡ (self.layout, self.finding, self.trace) }
    {
        let Survey {
            head: _,
            layout,
            finding,
            primary: _,
            guarded: _,
            trace,
        } = self;
        (layout, finding, trace)
    }
}

// The survey of a disk that denotes nothing.
fn nothing(head: Head, reason: Reason, guarded: Trace, trace: Trace) -> Survey
    ensures { result ≡ nothing_of head reason guarded trace }
{
    Survey {
        head,
        layout: None,
        finding: Some(Finding::NoTable(NoTable::from(reason))),
        primary: false,
        guarded,
        trace,
    }
}

// The first thing that is wrong with a disk that denotes a layout whose copies, if it has any, are whole.
fn judge<const B: usize, D: Disk<B>>(
    alloc: Global,
    disk: &mut D,
    layout: &Layout,
) -> Result<Option<Finding>, Failure>
    requires size { IsSectorSize B }
    requires denotes { D.tells → Denotes B (D.told disk.old).seen (Some layout.now) }
    requires whole { D.tells → IsBodyWhole B (D.told disk.old).seen layout.now.body }
    ensures same { OnlyReads D.Disk disk.old disk.new }
    ensures blames { Blames fault_of result (D.faults disk.old) (D.faults disk.new) }
    ensures place { D.tells → IfErr result (FailedIn (Reads B (D.told disk.old).seen)) }
    ensures ok { D.tells → IfOk result (λ f. FindingIs B (D.told disk.old).seen (Some layout.now) f) }
{
    let broken = unsound::<B>(alloc, layout)?;
    match broken {
        Some(finding) => return Ok(Some(finding)),
        None => {}
    }
    let foreign = first_foreign(alloc, disk, layout)?;
    match foreign {
        Some(path) => Ok(Some(Finding::ForeignLabel(path))),
        None => Ok(None),
    }
}

// As `judge`, after the finding on the copies, if any.
fn judge_after<const B: usize, D: Disk<B>>(
    alloc: Global,
    disk: &mut D,
    layout: &Layout,
    broken: Option<Finding>,
) -> Result<Option<Finding>, Failure>
    requires size { IsSectorSize B }
    requires denotes { D.tells → Denotes B (D.told disk.old).seen (Some layout.now) }
    requires broken { D.tells → BrokenIs B (D.told disk.old).seen layout.now.body broken }
    ensures same { OnlyReads D.Disk disk.old disk.new }
    ensures blames { Blames fault_of result (D.faults disk.old) (D.faults disk.new) }
    ensures place { D.tells → IfErr result (FailedIn (Reads B (D.told disk.old).seen)) }
    ensures ok { D.tells → IfOk result (λ f. FindingIs B (D.told disk.old).seen (Some layout.now) f) }
{
    match broken {
        Some(finding) => Ok(Some(finding)),
        None => judge(alloc, disk, layout),
    }
}

// Adds the label places of some slices.
fn add_places(slices: &[Slice], places: &mut Trace) -> Result<(), AllocError>
    requires { All (λ p. place_of p < 2 ^ 64) slices.now }
    ensures { OnOk result (Adds places.old places.new (IsPlace slices.now)) }
{
    for k in 0..slices.len() {
        places.add_one(slices[k].first + 1)?;
    }
    Ok(())
}

// The table's GPT with the disk's labels. Their places are added to those that are guarded and to the trace.
fn with_labels<const B: usize, D: Disk<B>>(
    alloc: Global,
    disk: &mut D,
    table: Table,
    guarded: &mut Trace,
    trace: &mut Trace,
) -> Result<Layout, Failure>
    requires size { IsSectorSize B }
    ensures same { OnlyReads D.Disk disk.old disk.new }
    ensures blames { Blames fault_of result (D.faults disk.old) (D.faults disk.new) }
    ensures place { IfErr result (FailedIn (IsPlace (places_of B (D.count disk.old) (Gpt table)))) }
    ensures body { IfOk result (λ o. o.body ≡ Gpt table) }
    ensures ok { D.tells → IfOk result (λ o. LayoutOf B (D.told disk.old).seen table o) }
    ensures guarded { OnOk result (Adds guarded.old guarded.new (IsPlace (places_of B (D.count disk.old) (Gpt table)))) }
    ensures traced { OnOk result (Adds trace.old trace.new (IsPlace (places_of B (D.count disk.old) (Gpt table)))) }
{
    let sectors = disk.sectors();
    let body = Body::Gpt(table);
    let slices = label_places::<B>(alloc, sectors, &body)?;
    add_places(&slices, guarded)?;
    let labels = traced_labels(alloc, disk, &slices, trace)?;
    Ok(Layout {
        sectors,
        body,
        labels,
    })
}

// The survey of a GPT disk whose table is that of this copy, after the finding on the copies, if any. The trace has the sectors that
// decide the table.
fn survey_labelled<const B: usize, D: Disk<B>>(
    alloc: Global,
    disk: &mut D,
    head: Head,
    found: FoundCopy,
    broken: Option<Finding>,
    mut trace: Trace,
) -> Result<Survey, Failure>
    requires size { IsSectorSize B }
    requires room { HasRoom B (D.count disk.old) }
    requires head { D.tells → HeadOf (D.told disk.old).seen head }
    requires plain { D.tells → ¬ IsMbrDisk (D.told disk.old).seen }
    requires found { D.tells → FoundCopyIs B (D.told disk.old).seen found }
    requires broken { D.tells → BrokenIs B (D.told disk.old).seen (Gpt found.table) broken }
    requires traced { D.tells → IsBodyTrace B (D.told disk.old).seen trace }
    ensures same { OnlyReads D.Disk disk.old disk.new }
    ensures blames { Blames fault_of result (D.faults disk.old) (D.faults disk.new) }
    ensures place { D.tells → IfErr result (FailedIn (VerdictReads B (D.told disk.old).seen)) }
    ensures numbers { IfOk result (λ x. IfSome x.layout Numbers) }
    ensures tells { IfOk result Tells }
    ensures ok { D.tells → IfOk result (IsSurvey B (D.told disk.old).seen) }
{
    let primary = found.no_primary.is_none();
    let mut guarded = Trace::new(alloc);
    let layout = with_labels(alloc, disk, found.table, &mut guarded, &mut trace)?;
    let finding = judge_after(alloc, disk, &layout, broken)?;
    Ok(Survey {
        head,
        layout: Some(layout),
        finding,
        primary,
        guarded,
        trace,
    })
}

// As `survey_labelled`; the disk is asked for each label place once.
fn survey_table<const B: usize, D: Disk<B>>(
    alloc: Global,
    disk: &mut D,
    head: Head,
    found: FoundCopy,
    broken: Option<Finding>,
    trace: Trace,
) -> Result<Survey, Failure>
    requires size { IsSectorSize B }
    requires room { HasRoom B (D.count disk.old) }
    requires head { D.tells → HeadOf (D.told disk.old).seen head }
    requires plain { D.tells → ¬ IsMbrDisk (D.told disk.old).seen }
    requires found { D.tells → FoundCopyIs B (D.told disk.old).seen found }
    requires broken { D.tells → BrokenIs B (D.told disk.old).seen (Gpt found.table) broken }
    requires traced { D.tells → IsBodyTrace B (D.told disk.old).seen trace }
    ensures same { OnlyReads D.Disk disk.old disk.new }
    ensures blames { Blames fault_of result (D.faults disk.old) (D.faults disk.new) }
    ensures place { D.tells → IfErr result (FailedIn (VerdictReads B (D.told disk.old).seen)) }
    ensures numbers { IfOk result (λ x. IfSome x.layout Numbers) }
    ensures tells { IfOk result Tells }
    ensures ok { D.tells → IfOk result (IsSurvey B (D.told disk.old).seen) }
{
    let room = Room::for_cache(alloc)?;
    let mut cache = ReadCache::new(disk, room);
    survey_labelled(alloc, &mut cache, head, found, broken, trace)
}

// The survey of a GPT disk whose table is that of this copy, decoded from the last array. The trace has the sectors that decide the table.
fn survey_copies<const B: usize, D: Disk<B>>(
    alloc: Global,
    disk: &mut D,
    head: Head,
    found: FoundCopy,
    trace: Trace,
    last: &mut LastArray,
) -> Result<Survey, Failure>
    requires size { IsSectorSize B }
    requires room { HasRoom B (D.count disk.old) }
    requires head { D.tells → HeadOf (D.told disk.old).seen head }
    requires plain { D.tells → ¬ IsMbrDisk (D.told disk.old).seen }
    requires found { D.tells → FoundCopyIs B (D.told disk.old).seen found }
    requires last { AreEntries found.table.entries last.old }
    requires traced { D.tells → IsBodyTrace B (D.told disk.old).seen trace }
    ensures same { OnlyReads D.Disk disk.old disk.new }
    ensures blames { Blames fault_of result (D.faults disk.old) (D.faults disk.new) }
    ensures place { D.tells → IfErr result (FailedIn (VerdictReads B (D.told disk.old).seen)) }
    ensures numbers { IfOk result (λ x. IfSome x.layout Numbers) }
    ensures tells { IfOk result Tells }
    ensures ok { D.tells → IfOk result (IsSurvey B (D.told disk.old).seen) }
{
    let broken = broken_copies(alloc, disk, head, &found, last)?;
    survey_table(alloc, disk, head, found, broken, trace)
}

// The survey of a disk that has sectors and isn't an MBR disk.
fn survey_gpt<const B: usize, D: Disk<B>>(
    alloc: Global,
    disk: &mut D,
    head: Head,
    last: &mut LastArray,
) -> Result<Survey, Failure>
    requires size { IsSectorSize B }
    requires some { 0 < D.count disk.old }
    requires head { D.tells → HeadOf (D.told disk.old).seen head }
    requires plain { D.tells → ¬ IsMbrDisk (D.told disk.old).seen }
    ensures same { OnlyReads D.Disk disk.old disk.new }
    ensures blames { Blames fault_of result (D.faults disk.old) (D.faults disk.new) }
    ensures place { D.tells → IfErr result (FailedIn (VerdictReads B (D.told disk.old).seen)) }
    ensures numbers { IfOk result (λ x. IfSome x.layout Numbers) }
    ensures tells { IfOk result Tells }
    ensures ok { D.tells → IfOk result (IsSurvey B (D.told disk.old).seen) }
{
    let mut trace = Trace::new(alloc);
    trace.add_one(0)?;
    let sectors = disk.sectors();
    if !has_room::<B>(sectors) {
        let reason = Reason::TooSmall;
        return Ok(nothing(head, reason, Trace::new(alloc), trace));
    }
    match read_either(alloc, disk, &mut trace, last)? {
        Ok(found) => survey_copies(alloc, disk, head, found, trace, last),
        Err((primary, backup)) => {
            let reason = Reason::NoCopy(primary, backup);
            Ok(nothing(head, reason, Trace::new(alloc), trace))
        }
    }
}

// The survey of an MBR disk that denotes this layout, read with this trace.
fn survey_layout<const B: usize, D: Disk<B>>(
    alloc: Global,
    disk: &mut D,
    layout: Layout,
    trace: Trace,
) -> Result<Survey, Failure>
    requires size { IsSectorSize B }
    requires mbr { D.tells → IsMbrDisk (D.told disk.old).seen }
    requires denotes { D.tells → Denotes B (D.told disk.old).seen (Some layout) }
    requires numbers { Numbers layout }
    requires traced { D.tells → IsTraceOf B (D.told disk.old).seen trace }
    ensures same { OnlyReads D.Disk disk.old disk.new }
    ensures blames { Blames fault_of result (D.faults disk.old) (D.faults disk.new) }
    ensures place { D.tells → IfErr result (FailedIn (Reads B (D.told disk.old).seen)) }
    ensures numbers { IfOk result (λ x. IfSome x.layout Numbers) }
    ensures tells { IfOk result Tells }
    ensures ok { D.tells → IfOk result (IsSurvey B (D.told disk.old).seen) }
{
    let finding = judge(alloc, disk, &layout)?;
    let guarded = trace.copy(alloc)?;
    Ok(Survey {
        head: Head::Mbr,
        layout: Some(layout),
        finding,
        primary: false,
        guarded,
        trace,
    })
}

// The survey of an MBR disk with these records.
fn survey_records<const B: usize, D: Disk<B>>(
    alloc: Global,
    disk: &mut D,
    mbr: Mbr,
) -> Result<Survey, Failure>
    requires size { IsSectorSize B }
    requires mbr { D.tells → IsMbr (D.told disk.old).seen mbr.records }
    ensures same { OnlyReads D.Disk disk.old disk.new }
    ensures blames { Blames fault_of result (D.faults disk.old) (D.faults disk.new) }
    ensures place { D.tells → IfErr result (FailedIn (VerdictReads B (D.told disk.old).seen)) }
    ensures numbers { IfOk result (λ x. IfSome x.layout Numbers) }
    ensures tells { IfOk result Tells }
    ensures ok { D.tells → IfOk result (IsSurvey B (D.told disk.old).seen) }
{
    let mut last = LastArray::new(alloc);
    let (found, trace) = read_layout(alloc, disk, &Some(mbr), &mut last)?;
    match found {
        Ok(layout) => survey_layout(alloc, disk, layout, trace),
        Err(reason) => {
            let guarded = trace.copy(alloc)?;
            Ok(nothing(Head::Mbr, reason, guarded, trace))
        }
    }
}

// As `survey_records`; the disk is asked for each sector once.
fn survey_mbr<const B: usize, D: Disk<B>>(
    alloc: Global,
    disk: &mut D,
    mbr: Mbr,
) -> Result<Survey, Failure>
    requires size { IsSectorSize B }
    requires mbr { D.tells → IsMbr (D.told disk.old).seen mbr.records }
    ensures same { OnlyReads D.Disk disk.old disk.new }
    ensures blames { Blames fault_of result (D.faults disk.old) (D.faults disk.new) }
    ensures place { D.tells → IfErr result (FailedIn (VerdictReads B (D.told disk.old).seen)) }
    ensures numbers { IfOk result (λ x. IfSome x.layout Numbers) }
    ensures tells { IfOk result Tells }
    ensures ok { D.tells → IfOk result (IsSurvey B (D.told disk.old).seen) }
{
    let room = Room::for_cache(alloc)?;
    let mut cache = ReadCache::new(disk, room);
    survey_records(alloc, &mut cache, mbr)
}

/// Reads a disk once, and tells all that it says of its layout and its health.
///
/// It reads sector 0 and the two sides of a GPT, or the chain of an MBR disk, and the label places of the layout, once each (up to 512
/// label places of a GPT, and as many sectors of an MBR disk).
pub fn survey_disk<const B: usize, D: Disk<B>>(
    alloc: Global,
    disk: &mut D,
) -> Result<Survey, Failure>
    requires size { IsSectorSize B }
    ensures same { OnlyReads D.Disk disk.old disk.new }
    ensures blames { Blames fault_of result (D.faults disk.old) (D.faults disk.new) }
    ensures place { D.tells → IfErr result (FailedIn (VerdictReads B (D.told disk.old).seen)) }
    ensures numbers { IfOk result (λ x. IfSome x.layout Numbers) }
    ensures tells { IfOk result Tells }
    ensures ok { D.tells → IfOk result (IsSurvey B (D.told disk.old).seen) }
{
    let mut last = LastArray::new(alloc);
    survey_after(alloc, disk, &mut last)
}

/// The same, where an array isn't summed that has the bytes of the last one.
pub fn survey_after<const B: usize, D: Disk<B>>(
    alloc: Global,
    disk: &mut D,
    last: &mut LastArray,
) -> Result<Survey, Failure>
    requires size { IsSectorSize B }
    ensures same { OnlyReads D.Disk disk.old disk.new }
    ensures blames { Blames fault_of result (D.faults disk.old) (D.faults disk.new) }
    ensures place { D.tells → IfErr result (FailedIn (VerdictReads B (D.told disk.old).seen)) }
    ensures numbers { IfOk result (λ x. IfSome x.layout Numbers) }
    ensures tells { IfOk result Tells }
    ensures ok { D.tells → IfOk result (IsSurvey B (D.told disk.old).seen) }
{
    if disk.sectors() == 0 {
        let reason = Reason::TooSmall;
        let (guarded, trace) = (Trace::new(alloc), Trace::new(alloc));
        return Ok(nothing(Head::Unprotected, reason, guarded, trace));
    }
    let first = read_first(disk)?;
    match first.records {
        Some(mbr) => survey_mbr(alloc, disk, mbr),
        None => survey_gpt(alloc, disk, first.head, last),
    }
}
