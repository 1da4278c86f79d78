//! The copies of the table that a disk denotes, followed while phases are tried: what a write makes of them is known without a reading.

ghost use Rattle.std.specs.Prelude.{◌≡◌, ◌↔◌, ◌<◌, ◌+◌, ◌^◌, ℕ, All, length, slice_set, IsTrue, IfOk, IfErr, IfSome, OnOk, Some};
ghost use Rattle.pt_sector.specs.Device.{Blames};
ghost use Rattle.pt_sector.specs.Overlays.{OnlyReads};
ghost use Rattle.pt_sector.specs.Sectors.{Sectors, IsSectorSize, written};
ghost use Rattle.pt_gpt.specs.Copies.{HasRoom, Copy, SideReads};
ghost use Rattle.pt_gpt.specs.declared.table.Table.{Table};
ghost use Rattle.pt_gpt.specs.declared.table.Side.TheVariants.{Primary, Backup};
ghost use Rattle.pt_members.specs.declared.layout.Body.TheVariants.{Gpt};
ghost use Rattle.pt_apply.specs.Plans.{writes_of};
ghost use Rattle.pt_members.specs.Members.{IsPlace};
ghost use Rattle.pt_members.specs.Tables.{IsGptTable};
ghost use Rattle.pt_recover.specs.Denotes.{Denotes, Reads};
ghost use Rattle.pt_recover.specs.Spans.{IsIn};
ghost use Rattle.pt_check.specs.Answers.{fault_in, FailedInCheck};
ghost use Rattle.pt_follow.specs.Follow.{Follows, IsShort, StandingIs};
ghost use Rattle.pt_follow.specs.declared.standing.Standing.TheVariants.{Gives};
ghost use Rattle.pt_check.specs.inner.Following.{AreApart, AreCopies, AreFollowed, IsFollowed, IsGiven, IsDecided, IsLostSide, StillIs};

use crate::error::CheckError;
use crate::given::{Given, GivenTrace, deciding_of};
use crate::places::is_at_end;
use pt_apply::Write;
use pt_follow::{FollowedCopy, Standing, follow};
use pt_gpt::{MOST_ENTRIES, Side, Table, has_room};
use pt_members::{Body, Layout, Slice, label_places};
use pt_recover::Trace;
use pt_sector::{Disk, Lba};
use std::alloc::{AllocError, Global};

/// The copies of the table of a layout, and the sectors that decide it as far as they were asked for.
#[derive(Drop)]
pub(crate) struct Followed {
    primary: FollowedCopy,
    backup: Option<FollowedCopy>,
    deciding: Vec<GivenTrace>,
}

// Whether a copy is known to be of the table.
fn gives<const B: usize>(copy: &Option<FollowedCopy>, table: &Table) -> bool
    requires { IsSectorSize B }
    ensures { (d : Sectors) → IfSome copy.now (Follows B d Backup table.now) → IsTrue result → StandingIs B d Backup table.now Gives }
{
    let Some(copy) = copy else {
        return false;
    };
    match copy.standing::<B>(table) {
        Standing::Gives => true,
        _ => false,
    }
}

impl Followed {
    /// By which copies the table is denoted, if that is known.
    fn given<const B: usize>(&self, table: &Table) -> Option<Given>
        requires { IsSectorSize B }
        ensures { (d : Sectors) → AreCopies B d table.now self.now → IfSome result (IsGiven B d table.now) }
    {
        match self.primary.standing::<B>(table) {
            Standing::Gives => Some(Given::ByPrimary),
            Standing::LostHead => self.by_backup::<B>(table, Given::WithoutHeader),
            Standing::LostArray(told) => self.by_backup::<B>(table, Given::WithoutArray(told)),
            Standing::Unclear => None,
        }
    }

    // That it is denoted so, if the backup is known to be of the table.
    fn by_backup<const B: usize>(&self, table: &Table, given: Given) -> Option<Given>
        requires { IsSectorSize B }
        ensures { (d : Sectors) → IfSome self.now.backup (Follows B d Backup table.now)
            → IfSome result (λ g. (g ≡ given) × StandingIs B d Backup table.now Gives) }
    {
        if !gives::<B>(&self.backup, table) {
            return None;
        }
        Some(given)
    }

    /// The sectors that decide a disk with these copies, where they tell that it denotes the table.
    fn decided<const B: usize>(
        &mut self,
        alloc: Global,
        layout: &Layout,
        table: &Table,
    ) -> Result<Option<Trace>, AllocError>
        requires { IsSectorSize B }
        ensures followed { (d : Sectors) → IsFollowed B d layout.now table.now self.old
            → OnOk result (IsFollowed B d layout.now table.now self.new) }
        ensures decided { (d : Sectors) → IsFollowed B d layout.now table.now self.old
            → IfOk result (λ r. IfSome r (IsDecided B d layout.now table.now)) }
    {
        let count = table.entries.len();
        if count < 1 || count > MOST_ENTRIES || !has_room::<B>(layout.sectors) {
            return Ok(None);
        }
        let Some(given) = self.given::<B>(table) else {
            return Ok(None);
        };
        if !given.is_counted() {
            return Ok(None);
        }
        let trace = deciding_of::<B>(
            alloc,
            &mut self.deciding,
            layout.sectors,
            &layout.body,
            count as u32,
            given,
        )?;
        Ok(Some(trace))
    }
}

// Whether no label place of slices is in the sectors of a GPT's tables.
fn are_clear<const B: usize>(slices: &[Slice], sectors: u64) -> bool
    requires size { IsSectorSize B }
    requires small { All (λ p. p.first + 1 < 2 ^ 64) slices.now }
    ensures { IsTrue result → (s : ℕ) → IsGptTable B sectors s → ¬ IsPlace slices.now s }
{
    for k in 0..slices.len() {
        if is_at_end::<B>(sectors, Lba(slices[k].first + 1)) {
            return false;
        }
    }
    true
}

// Whether that is so of a body's label places.
fn are_apart<const B: usize>(alloc: Global, sectors: u64, body: &Body) -> Result<bool, AllocError>
    requires { IsSectorSize B }
    ensures { IfOk result (λ yes. IsTrue yes → AreApart B sectors body.now) }
{
    let places = label_places::<B>(alloc, sectors, body)?;
    Ok(are_clear::<B>(&places, sectors))
}

// Begins to follow a side's copy. None for an error that is no failure, which following it doesn't give.
fn follow_side<const B: usize, D: Disk<B>>(
    alloc: Global,
    disk: &mut D,
    side: Side,
    table: &Table,
) -> Result<Option<FollowedCopy>, CheckError>
    requires size { IsSectorSize B }
    requires room { HasRoom B (D.count disk.old) }
    ensures same { OnlyReads D.Disk disk.old disk.new }
    ensures blames { Blames fault_in result (D.faults disk.old) (D.faults disk.new) }
    ensures place { D.tells → IfErr result (FailedInCheck (SideReads B (D.told disk.old).seen side)) }
    ensures ok { D.tells → IfOk result (λ o. IfSome o (Follows B (D.told disk.old).seen side table.now)) }
{
    let error = match follow(alloc, disk, side, table) {
        Ok(copy) => return Ok(Some(copy)),
        Err(error) => error,
    };
    match error.failure() {
        Some(failure) => Err(CheckError::from(failure)),
        None => Ok(None),
    }
}

// Begins with the primary copy of a layout's table, if it can be followed.
fn begin<const B: usize, D: Disk<B>>(
    alloc: Global,
    disk: &mut D,
    layout: &Layout,
    table: &Table,
) -> Result<Option<Followed>, CheckError>
    requires size { IsSectorSize B }
    requires gpt { layout.now.body ≡ Gpt table.now }
    requires denoted { D.tells → Denotes B (D.told disk.old).seen (Some layout.now) }
    ensures same { OnlyReads D.Disk disk.old disk.new }
    ensures blames { Blames fault_in result (D.faults disk.old) (D.faults disk.new) }
    ensures place { D.tells → IfErr result (FailedInCheck (SideReads B (D.told disk.old).seen Primary)) }
    ensures ok { D.tells → IfOk result (λ o. IfSome o (IsFollowed B (D.told disk.old).seen layout.now table.now)) }
{
    if !has_room::<B>(disk.sectors()) {
        return Ok(None);
    }
    if !are_apart::<B>(alloc, layout.sectors, &layout.body)? {
        return Ok(None);
    }
    let Some(primary) = follow_side(alloc, disk, Side::Primary, table)? else {
        return Ok(None);
    };
    Ok(Some(Followed {
        primary,
        backup: None,
        deciding: Vec::new(alloc),
    }))
}

impl Followed {
    /// Whether it is known that no primary copy stands.
    fn has_lost<const B: usize>(&self, table: &Table) -> bool
        requires { IsSectorSize B }
        ensures { (d : Sectors) → Follows B d Primary table.now self.now.primary → IsTrue result → (u : Table) → ¬ Copy B d Primary u }
    {
        match self.primary.standing::<B>(table) {
            Standing::LostHead => true,
            Standing::LostArray(_) => true,
            _ => false,
        }
    }

    /// Whether the backup is followed, and known as far as its header tells.
    fn knows_backup(&self) -> bool
        ensures { IsTrue result → IfSome self.now.backup (λ c. ¬ IsShort c) }
    {
        match &self.backup {
            Some(backup) => !backup.is_short(),
            None => false,
        }
    }

    /// Follows the primary copy anew, as far as its header tells.
    fn renew_primary<const B: usize, D: Disk<B>>(
        &mut self,
        alloc: Global,
        disk: &mut D,
        table: &Table,
    ) -> Result<(), CheckError>
        requires size { IsSectorSize B }
        ensures same { OnlyReads D.Disk disk.old disk.new }
        ensures blames { Blames fault_in result (D.faults disk.old) (D.faults disk.new) }
        ensures place { D.tells → IfErr result (FailedInCheck (SideReads B (D.told disk.old).seen Primary)) }
        ensures ok { D.tells → AreCopies B (D.told disk.old).seen table.now self.old
            → OnOk result (AreCopies B (D.told disk.old).seen table.now self.new) }
        ensures deciding { self.new.deciding ≡ self.old.deciding }
    {
        if !has_room::<B>(disk.sectors()) {
            return Ok(());
        }
        if let Some(primary) = follow_side(alloc, disk, Side::Primary, table)? {
            self.primary = primary;
        }
        Ok(())
    }

    /// Follows the backup too, once the primary copy is lost: only then recovery reads it. Anew, where its header tells of more entries
    /// than are known.
    fn add_backup<const B: usize, D: Disk<B>>(
        &mut self,
        alloc: Global,
        disk: &mut D,
        table: &Table,
    ) -> Result<(), CheckError>
        requires size { IsSectorSize B }
        ensures same { OnlyReads D.Disk disk.old disk.new }
        ensures blames { Blames fault_in result (D.faults disk.old) (D.faults disk.new) }
        ensures place { D.tells → AreCopies B (D.told disk.old).seen table.now self.old
            → IfErr result (FailedInCheck (IsLostSide B (D.told disk.old).seen)) }
        ensures ok { D.tells → AreCopies B (D.told disk.old).seen table.now self.old
            → OnOk result (AreCopies B (D.told disk.old).seen table.now self.new) }
        ensures deciding { self.new.deciding ≡ self.old.deciding }
    {
        if self.knows_backup() || !has_room::<B>(disk.sectors()) {
            return Ok(());
        }
        if !self.has_lost::<B>(table) {
            return Ok(());
        }
        self.backup = follow_side(alloc, disk, Side::Backup, table)?;
        Ok(())
    }

    /// Follows a write on a disk of so many sectors.
    fn write<const B: usize>(&mut self, table: &Table, sectors: u64, write: &Write<B>)
        requires { IsSectorSize B }
        ensures copies { (d : Sectors) → length d ≡ sectors → AreCopies B d table.now self.old
            → AreCopies B (slice_set d write.now.lba.0 write.now.bytes) table.now self.new }
        ensures deciding { self.new.deciding ≡ self.old.deciding }
    {
        if write.lba.0 >= sectors {
            return;
        }
        self.primary.write(table, write.lba, &write.bytes);
        if let Some(backup) = &mut self.backup {
            backup.write(table, write.lba, &write.bytes);
        }
    }

    /// Follows the writes of a phase.
    fn write_phase<const B: usize>(&mut self, table: &Table, sectors: u64, phase: &[Write<B>])
        requires { IsSectorSize B }
        ensures copies { (d : Sectors) → length d ≡ sectors → AreCopies B d table.now self.old
            → AreCopies B (written (writes_of phase.now) d) table.now self.new }
        ensures deciding { self.new.deciding ≡ self.old.deciding }
    {
        for write in phase {
            self.write(table, sectors, write);
        }
    }
}

// Follows on where a disk was just recovered, which denotes this layout: begins, reads the primary copy as far as its header tells now, or
// takes the backup too.
fn follow_on<const B: usize, D: Disk<B>>(
    alloc: Global,
    disk: &mut D,
    layout: &Option<Layout>,
    followed: &mut Option<Followed>,
) -> Result<(), CheckError>
    requires size { IsSectorSize B }
    requires denoted { D.tells → Denotes B (D.told disk.old).seen layout.now }
    requires followed { D.tells → AreFollowed B (D.told disk.old).seen layout.now followed.old }
    ensures same { OnlyReads D.Disk disk.old disk.new }
    ensures blames { Blames fault_in result (D.faults disk.old) (D.faults disk.new) }
    ensures place { D.tells → IfErr result (FailedInCheck (Reads B (D.told disk.old).seen)) }
    ensures followed { D.tells → OnOk result (AreFollowed B (D.told disk.old).seen layout.now followed.new) }
{
    let Some(layout) = layout else {
        return Ok(());
    };
    let Body::Gpt(table) = &layout.body else {
        return Ok(());
    };
    match followed {
        Some(copies) => {
            if copies.primary.is_short() {
                return copies.renew_primary(alloc, disk, table);
            }
            copies.add_backup(alloc, disk, table)
        }
        None => {
            *followed = begin(alloc, disk, layout, table)?;
            Ok(())
        }
    }
}

/// Follows on after a recovery, which gave this layout. `is_same` says that the disk denoted it before, and `is_often` that there were so
/// many recoveries that to follow its copies pays.
pub(crate) fn follow_recovered<const B: usize, D: Disk<B>>(
    alloc: Global,
    disk: &mut D,
    layout: &Option<Layout>,
    followed: &mut Option<Followed>,
    is_same: bool,
    is_often: bool,
) -> Result<(), CheckError>
    requires size { IsSectorSize B }
    requires denoted { D.tells → Denotes B (D.told disk.old).seen layout.now }
    requires followed { D.tells → IsTrue is_same → AreFollowed B (D.told disk.old).seen layout.now followed.old }
    ensures same { OnlyReads D.Disk disk.old disk.new }
    ensures blames { Blames fault_in result (D.faults disk.old) (D.faults disk.new) }
    ensures place { D.tells → IfErr result (FailedInCheck (Reads B (D.told disk.old).seen)) }
    ensures followed { D.tells → OnOk result (AreFollowed B (D.told disk.old).seen layout.now followed.new) }
{
    if !is_same {
        *followed = None;
    }
    if !is_often {
        return Ok(());
    }
    follow_on(alloc, disk, layout, followed)
}

/// Follows the writes of a phase on a disk that denotes this layout.
pub(crate) fn follow_writes<const B: usize>(
    layout: &Option<Layout>,
    followed: &mut Option<Followed>,
    phase: &[Write<B>],
)
    requires { IsSectorSize B }
    ensures { (d : Sectors) → AreFollowed B d layout.now followed.old
        → AreFollowed B (written (writes_of phase.now) d) layout.now followed.new }
{
    let Some(layout) = layout else {
        return;
    };
    let Body::Gpt(table) = &layout.body else {
        return;
    };
    if let Some(copies) = followed {
        copies.write_phase(table, layout.sectors, phase);
    }
}

/// The sectors that decide the disk after a phase of one write, where the followed copies tell that it denotes what it did before.
pub(crate) fn still_decided<const B: usize>(
    alloc: Global,
    layout: &Option<Layout>,
    followed: &mut Option<Followed>,
    phase: &[Write<B>],
) -> Result<Option<Trace>, AllocError>
    requires { IsSectorSize B }
    ensures followed { (d : Sectors) → AreFollowed B d layout.now followed.old → OnOk result (AreFollowed B d layout.now followed.new) }
    ensures same { (d : Sectors) → Denotes B d layout.now → AreFollowed B (written (writes_of phase.now) d) layout.now followed.old
        → IfOk result (λ r. IfSome r (StillIs B (written (writes_of phase.now) d) layout.now)) }
{
    if phase.len() != 1 {
        return Ok(None);
    }
    let lba = phase[0].lba;
    let Some(layout) = layout else {
        return Ok(None);
    };
    let Body::Gpt(table) = &layout.body else {
        return Ok(None);
    };
    if lba.0 == 0 || !is_at_end::<B>(layout.sectors, lba) {
        return Ok(None);
    }
    match followed {
        Some(copies) => copies.decided::<B>(alloc, layout, table),
        None => Ok(None),
    }
}
