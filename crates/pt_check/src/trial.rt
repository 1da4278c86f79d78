//! The phases of a plan, tried one after the other over the disk.

ghost use Rattle.std.specs.Prelude.{◌≡◌, ◌≤◌, ◌+◌, length, IfOk, IfErr, IsTrue};
ghost use Rattle.pt_sector.specs.Device.{Blames};
ghost use Rattle.pt_sector.specs.Overlays.{OnlyReads, read_of, room_left, shown};
ghost use Rattle.pt_sector.specs.Sectors.{Sectors, IsSectorSize, written};
ghost use Rattle.pt_apply.specs.Plans.{writes_of, phases_of, writes_in, finished, NoneIs};
ghost use Rattle.pt_recover.specs.Denotes.{Denotes, Reads};
ghost use Rattle.pt_recover.specs.Alike.{IsAlike};
ghost use Rattle.pt_recover.specs.Spans.{IsIn};
ghost use Rattle.pt_check.specs.Answers.{CheckReads, fault_in, FailedInCheck};
ghost use Rattle.pt_check.specs.inner.Answers.{IsKnown, TouchedIs, current_of, KeepsRead, StepIs, LastIs, SettlesFrom, TrialIs};
ghost use Rattle.pt_check.specs.inner.Following.{AreFollowed, IsStepped, StepFollowed};

use crate::answer::Why;
use crate::denoted::{read_denoted, same_layout};
use crate::error::CheckError;
use crate::following::{Followed, follow_recovered, follow_writes, still_decided};
use crate::writes::{Objection, first_in_phase};
use pt_apply::{Plan, Write};
use pt_gpt::LastArray;
use pt_recover::{Layout, Trace, is_alike};
use pt_sector::{Disk, FailedRead, Lba, Overlay, Room, read_sector};
use std::alloc::Global;

/// After so many recoveries the copies of the table are followed: to begin with that costs about as much as one or two.
const MANY_RECOVERIES: usize = 8;

/// What the phases came to: a reason against the plan, or the phase that gave the new layout, if it isn't the old one.
#[derive(Clone, Copy)]
pub(crate) enum Trial {
    Refused(Why),
    Passed(Option<u64>),
}

/// What the disk denotes, and what it denotes with the whole plan written.
pub(crate) struct Layouts {
    pub old: Option<Layout>,
    pub new: Option<Layout>,
}

// By hand: a derived drop stands in each function at each of its exits, and is proved there.
impl Drop for Layouts {
    fn drop(self) {
        let Layouts { old: _, new: _ } = self;
    }
}

impl Layouts {
    /// The layout of the finished disk.
    pub(crate) fn into_new(self) -> Option<Layout>
        ensures { result ≡ self.new }
    {
        let Layouts { old: _, new } = self;
        new
    }
}

/// Against writes of what recovery reads.
#[derive(Clone, Copy)]
struct IsRead<'a> {
    trace: &'a Trace,
}

impl<const B: usize> Objection<B> for IsRead<'_> {
    ghost against = { λ o w. IsIn o.trace.now w.0 };

    fn objects(&self, write: &Write<B>) -> bool {
        self.trace.contains(write.lba)
    }
}

/// The first sector of a phase of several writes that recovery reads on the disk before it.
fn touched<const B: usize>(phase: &[Write<B>], trace: &Trace) -> Option<Lba>
    requires { IsSectorSize B }
    ensures { TouchedIs (IsIn trace.now) (writes_of phase.now) result }
{
    if phase.len() <= 1 {
        return None;
    }
    match first_in_phase(&IsRead { trace }, phase) {
        Some(k) => Some(phase[k].lba),
        None => None,
    }
}

/// Whether no write of a phase is of a sector of the trace. The disk after it then denotes what it did, by the same sectors.
fn is_unread<const B: usize>(phase: &[Write<B>], trace: &Trace) -> bool
    requires { IsSectorSize B }
    ensures { IsTrue result → NoneIs (λ w. IsIn trace.now w.0) (writes_of phase.now) }
{
    match first_in_phase(&IsRead { trace }, phase) {
        Some(_) => false,
        None => true,
    }
}

/// What the disk denotes after phases with this switch.
fn current<'a>(layouts: &'a Layouts, switch: Option<u64>) -> &'a Option<Layout>
    ensures { result.now ≡ current_of layouts.now.old layouts.now.new switch }
{
    match switch {
        None => &layouts.old,
        Some(_) => &layouts.new,
    }
}

/// Whether recovery can't tell a write from what stands in its sector, on a disk that denotes this.
fn writes_alike<const B: usize, D: Disk<B>>(
    disk: &mut D,
    write: &Write<B>,
    denoted: &Option<Layout>,
) -> Result<bool, FailedRead>
    requires size { IsSectorSize B }
    requires denoted { D.tells → Denotes B (D.told disk.old).seen denoted.now }
    ensures same { OnlyReads D.Disk disk.old disk.new }
    ensures blames { Blames read_of result (D.faults disk.old) (D.faults disk.new) }
    ensures place { IfErr result (λ e. e.0 ≡ write.now.lba) }
    ensures alike { D.tells → IfOk result (λ yes. IsTrue yes → IsAlike B (D.told disk.old).seen write.now.lba.0 write.now.bytes) }
{
    let sectors = disk.sectors();
    if write.lba.0 >= sectors {
        return Ok(false);
    }
    let mut standing = [0; B];
    read_sector(disk, write.lba, &mut standing)?;
    Ok(is_alike(denoted, sectors, write.lba, &standing, &write.bytes))
}

/// Whether a phase leaves each sector of the trace alike: none of its writes is of one, or recovery can't tell its one write from what
/// stands there. The disk after it then denotes what it did, by the same sectors.
fn keeps_read<const B: usize, D: Disk<B>>(
    disk: &mut D,
    phase: &[Write<B>],
    trace: &Trace,
    denoted: &Option<Layout>,
) -> Result<bool, FailedRead>
    requires size { IsSectorSize B }
    requires denoted { D.tells → Denotes B (D.told disk.old).seen denoted.now }
    ensures same { OnlyReads D.Disk disk.old disk.new }
    ensures blames { Blames read_of result (D.faults disk.old) (D.faults disk.new) }
    ensures place { IfErr result (λ e. IsIn trace.now e.0.0) }
    ensures kept { D.tells → IfOk result
        (λ yes. IsTrue yes → KeepsRead B (IsIn trace.now) (D.told disk.old).seen (writes_of phase.now)) }
{
    let Some(k) = first_in_phase(&IsRead { trace }, phase) else {
        return Ok(true);
    };
    if phase.len() > 1 {
        return Ok(false);
    }
    writes_alike(disk, &phase[k], denoted)
}

/// What a phase gave: the switch so far, or neither layout.
#[derive(Clone, Copy)]
enum Step {
    Goes(Option<u64>),
    Neither,
}

/// Whether the layout after the phase of this number is the old one, before any other, or the new one.
fn compare(found: &Option<Layout>, layouts: &Layouts, switch: Option<u64>, number: u64) -> Step
    ensures { StepIs found.now layouts.now.old layouts.now.new switch number result }
{
    if same_layout(found, &layouts.old) {
        return match switch {
            None => Step::Goes(None),
            Some(_) => Step::Neither,
        };
    }
    if !same_layout(found, &layouts.new) {
        return Step::Neither;
    }
    match switch {
        None => Step::Goes(Some(number)),
        Some(_) => Step::Goes(switch),
    }
}

/// What a recovery after a phase came to, and the sectors that it read.
#[derive(Drop)]
struct Stepped {
    step: Step,
    trace: Trace,
}

/// What the disk denotes after the phase of this number. The copies that are followed are followed on.
fn step_on<const B: usize, D: Disk<B>>(
    alloc: Global,
    disk: &mut D,
    layouts: &Layouts,
    switch: Option<u64>,
    number: u64,
    last: &mut LastArray,
    followed: &mut Option<Followed>,
    is_often: bool,
) -> Result<Stepped, CheckError>
    requires size { IsSectorSize B }
    requires followed { D.tells → AreFollowed B (D.told disk.old).seen (current_of layouts.now.old layouts.now.new switch) followed.old }
    ensures same { OnlyReads D.Disk disk.old disk.new }
    ensures blames { Blames fault_in result (D.faults disk.old) (D.faults disk.new) }
    ensures place { D.tells → IfErr result (FailedInCheck (Reads B (D.told disk.old).seen)) }
    ensures stepped { D.tells → IfOk result (IsStepped B (D.told disk.old).seen layouts.now.old layouts.now.new switch number) }
    ensures followed { D.tells → IfOk result
        (λ r. StepFollowed B (D.told disk.old).seen layouts.now.old layouts.now.new r.step followed.new) }
{
    let (denoted, trace) = read_denoted(alloc, disk, last)?;
    let step = compare(&denoted, layouts, switch, number);
    let Step::Goes(now) = step else {
        return Ok(Stepped { step, trace });
    };
    follow_recovered(alloc, disk, &denoted, followed, now == switch, is_often)?;
    Ok(Stepped { step, trace })
}

/// How many phases there are until no later one writes a sector of the trace.
fn settled<const B: usize>(plan: &Plan<B>, trace: &Trace) -> usize
    requires { IsSectorSize B }
    ensures { SettlesFrom (IsIn trace.now) (phases_of plan.now) result }
{
    let mut count = 0;
    for i in 0..plan.phases.len() {
        if !is_unread(&plan.phases[i], trace) {
            count = i + 1;
        }
    }
    count
}

/// What the phases came to where the one of this number gives the new layout, and no later one changes that.
fn last_step(layouts: &Layouts, switch: Option<u64>, number: u64) -> Trial
    ensures { LastIs layouts.now.old layouts.now.new switch number result }
{
    match compare(&layouts.new, layouts, switch, number) {
        Step::Goes(switch) => Trial::Passed(switch),
        Step::Neither => Trial::Refused(Why::Neither(number)),
    }
}

/// Puts a phase into an overlay that has room for it.
pub(crate) fn put_phase<'a, const B: usize, D: Disk<B>>(
    over: &mut Overlay<'a, D, B>,
    phase: &[Write<B>],
)
    requires size { IsSectorSize B }
    requires room { length phase.now ≤ room_left over.old.own }
    ensures same_reference { over.new.disk.ghost_name ≡ over.old.disk.ghost_name }
    ensures disk { over.new.disk.now ≡ over.old.disk.now }
    ensures faults { over.new.failed ≡ over.old.failed }
    ensures room { room_left over.old.own ≤ room_left over.new.own + length phase.now }
    ensures seen { (⟦<Overlay<'a, D, B> as Disk<B>>⟧.told over.new).seen ≡ written (writes_of phase.now)
        (⟦<Overlay<'a, D, B> as Disk<B>>⟧.told over.old).seen }
    ensures own { (d : Sectors) → shown d over.new.own ≡ written (writes_of phase.now) (shown d over.old.own) }
{
    for write in phase {
        over.put(write.lba, &write.bytes);
    }
}

/// Tries the phases in an overlay: each may write what recovery reads only as its one write, and gives the old or the
/// new layout. `end` has the sectors that recovery of the finished disk reads.
///
/// The disk is recovered only after a phase that changes what recovery reads in a sector: after any other it denotes what it
/// did. Once no later phase writes a sector of `end`, it denotes what the finished disk does. An array isn't summed that has the bytes
/// of the last one.
pub(crate) fn try_phases<const B: usize, D: Disk<B>>(
    alloc: Global,
    disk: &mut D,
    plan: &Plan<B>,
    count: usize,
    layouts: &Layouts,
    trace: Trace,
    end: &Trace,
    last: &mut LastArray,
) -> Result<Trial, CheckError>
    requires size { IsSectorSize B }
    requires room { count ≡ length (writes_in (phases_of plan.now)) }
    requires old { D.tells → IsKnown B (D.told disk.old).seen layouts.now.old trace }
    requires new { D.tells → IsKnown B (finished plan.now (D.told disk.old).seen)
        layouts.now.new end.now }
    ensures same { OnlyReads D.Disk disk.old disk.new }
    ensures blames { Blames fault_in result (D.faults disk.old) (D.faults disk.new) }
    ensures place { D.tells → IfErr result (FailedInCheck (CheckReads B (D.told disk.old).seen (phases_of plan.now))) }
    ensures tried { D.tells → IfOk result
        (λ t. TrialIs (Denotes B) (Reads B) (phases_of plan.now) (D.told disk.old).seen layouts.now.old layouts.now.new t) }
{
    let room = Room::new(alloc, count)?;
    let mut over = Overlay::new(disk, room);
    let mut before = trace;
    let mut switch = None;
    let mut followed = None;
    let mut recoveries = 0;
    let settles = settled(plan, end);
    for i in 0..plan.phases.len() {
        let phase = &plan.phases[i];
        let number = i as u64 + 1;
        if let Some(lba) = touched(phase, &before) {
            return Ok(Trial::Refused(Why::ReadSector(number, lba)));
        }
        if i + 1 >= settles {
            return Ok(last_step(layouts, switch, number));
        }
        let keeps = keeps_read(&mut over, phase, &before, current(layouts, switch))?;
        put_phase(&mut over, phase);
        follow_writes(current(layouts, switch), &mut followed, phase);
        if keeps {
            continue;
        }
        let denoted = current(layouts, switch);
        if let Some(decided) = still_decided(alloc, denoted, &mut followed, phase)? {
            before = decided;
            continue;
        }
        let is_often = recoveries >= MANY_RECOVERIES;
        let after = step_on(
            alloc,
            &mut over,
            layouts,
            switch,
            number,
            last,
            &mut followed,
            is_often,
        )?;
        switch = match after.step {
            Step::Goes(switch) => switch,
            Step::Neither => return Ok(Trial::Refused(Why::Neither(number))),
        };
        before = after.trace;
        recoveries += 1;
    }
    Ok(Trial::Passed(switch))
}
